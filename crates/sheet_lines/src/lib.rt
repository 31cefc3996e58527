// The lines of a sheet as bytes: each kind has a function that puts a line of it whole at the start of a buffer and answers its length. crates/sheet says
// which bytes a line has, and crates/printer which line comes next. The length is answered and no slice, since a piece is several lines. Beneath them a line
// is put together from texts and numbers (text).
#![tactic(auto)]

mod text;

ghost use Rattle.std.specs.Prelude.{◌≤◌, length};
ghost use Rattle.table.specs.Table.{most_nodes};
ghost use Rattle.sheet.specs.Sheet.{refused_line, reached_line, counts_line, marks_line, node_line, path_line};
ghost use Rattle.sheet_lines.specs.Buffers.{PutsLine};
ghost use Rattle.sheet_lines.specs.Room.{line_room};

use mark_tally::Tally;
use text::Line;

// What every line has room in: a number takes at most 20 bytes, and a path at most 1,024 numbers, each after a space. Each function asks for that
// room itself, as each begins a line of its own in what is lent. A line's words stand in its function, where they read as the line does.
pub const LINE_ROOM: usize = 32768;

// The line of a refusal: its number and its place, as they are printed.
pub fn put_refused(number: u32, place: u32, out: &mut [u8]) -> usize
    requires { line_room ≤ length out.old }
    ensures { PutsLine (refused_line number place) out result }
{
    let mut line = Line { out, end: 0 };
    line.field(b"refused ", u64::from(number));
    line.field(b" at ", u64::from(place));
    line.text(b"\n");
    line.end
}

// The line of how many nodes were reached, of the horizon and of the iterations.
pub fn put_reached(reached: u32, horizon: u64, iterations: u64, out: &mut [u8]) -> usize
    requires { line_room ≤ length out.old }
    ensures { PutsLine (reached_line reached horizon iterations) out result }
{
    let mut line = Line { out, end: 0 };
    line.field(b"reached ", u64::from(reached));
    line.field(b" horizon ", horizon);
    line.field(b" iterations ", iterations);
    line.text(b"\n");
    line.end
}

// The line of the other counts.
pub fn put_counts(contractions: u64, extensions: u64, deletions: u64, out: &mut [u8]) -> usize
    requires { line_room ≤ length out.old }
    ensures { PutsLine (counts_line contractions extensions deletions) out result }
{
    let mut line = Line { out, end: 0 };
    line.field(b"contractions ", contractions);
    line.field(b" extensions ", extensions);
    line.field(b" deletions ", deletions);
    line.text(b"\n");
    line.end
}

// The line of the marks: how many arcs have each.
pub fn put_marks(tally: Tally, out: &mut [u8]) -> usize
    requires { line_room ≤ length out.old }
    ensures { PutsLine (marks_line tally.unreached tally.dropped tally.kept tally.tree) out result }
{
    let mut line = Line { out, end: 0 };
    line.field(b"marks ", tally.unreached);
    line.field(b" ", tally.dropped);
    line.field(b" ", tally.kept);
    line.field(b" ", tally.tree);
    line.text(b"\n");
    line.end
}

// The line of a node: its distance, its price and the position of its tree arc.
pub fn put_node(node: usize, distance: u64, price: u64, arc: u16, out: &mut [u8]) -> usize
    requires { line_room ≤ length out.old }
    ensures { PutsLine (node_line node distance price arc) out result }
{
    let mut line = Line { out, end: 0 };
    line.field(b"node ", node as u64);
    line.field(b" distance ", distance);
    line.field(b" price ", price);
    line.text(b" arc ");
    line.arc(arc);
    line.text(b"\n");
    line.end
}

// The line of a path: the node that it leads to, and the nodes on it.
pub fn put_path(node: usize, nodes: &[u16], out: &mut [u8]) -> usize
    requires nodes_len_bound { length nodes.now ≤ most_nodes }
    requires line_room_in_bounds { line_room ≤ length out.old }
    ensures { PutsLine (path_line node nodes.now) out result }
{
    let mut line = Line { out, end: 0 };
    line.field(b"path ", node as u64);
    line.text(b":");
    line.spaced(nodes);
    line.text(b"\n");
    line.end
}
