// A sheet in pieces: as many whole lines as fit into a buffer.
ghost use Rattle.std.specs.Prelude.{◌≤◌, length};
ghost use Rattle.sheet_lines.specs.Room.{line_room};
ghost use Rattle.printer.specs.Lines.{printing};
ghost use Rattle.printer.specs.Pieces.{Continues};

use crate::plan::{Cursor, FinishedPlan, Piece};
use sheet_lines::LINE_ROOM;
use table::MOST_NODES;

impl FinishedPlan<'_> {
    // The next piece of the sheet, from a cursor on, at the start of a buffer with room for a line: line after line, while there is room for any
    // line. None where there is no line any more. Lines are of any length, so that the loop counts none; without a heap a path is listed in an
    // array of its own.
    pub fn next_piece(&self, cursor: Cursor, out: &mut [u8]) -> Option<Piece>
        requires { line_room ≤ length out.old }
        ensures { Continues (printing self.now) cursor result out.new }
    {
        let mut nodes = [0u16; MOST_NODES];
        let mut piece = Piece {
            count: 0,
            next: cursor,
        };
        while LINE_ROOM <= out.len() - piece.count {
            let Some(line) = self.next_line(piece.next, &mut nodes, &mut out[piece.count..]) else {
                break;
            };
            piece = Piece {
                count: piece.count + line.count,
                next: line.next,
            };
        }
        if piece.count == 0 { None } else { Some(piece) }
    }
}
