// The lines of a sheet one after the other: which comes next, and where the one behind it stands. Each function asks for a line's room itself, as those
// of crate sheet_lines do that put one.
ghost use Rattle.std.specs.Prelude.{◌≤◌, length, Some};
ghost use Rattle.sheet_lines.specs.Room.{line_room};
ghost use Rattle.printer.specs.declared.plan.Cursor.TheVariants.{Start, Reached, Node, Path};
ghost use Rattle.printer.specs.Lines.{printing, NextLine, FirstWithDistance};

use crate::plan::{Cursor, FinishedPlan, Piece};
use mark_tally::tally_marks;
use sheet_lines::{put_counts, put_marks, put_node, put_path, put_reached, put_refused};
use table::faults::Fault;
use table::{MOST_NODES, NO_ARC, NO_DISTANCE};

impl FinishedPlan<'_> {
    // The first node with a distance, from a node on, of those that may have a line: as many as there are distances, but no more than a table has.
    fn next_with_distance(&self, from: usize) -> Option<usize>
        ensures { FirstWithDistance self.now.distances.now from result }
    {
        let n = self.distances.len().min(MOST_NODES);
        (from..n).find(|&v| self.distances[v] != NO_DISTANCE)
    }

    // The line of the reached nodes.
    fn reached_line(&self, out: &mut [u8]) -> Piece
        requires { line_room ≤ length out.old }
        ensures { NextLine Reached (printing self.now) out (Some result) }
    {
        let answer = self.answer;
        Piece {
            count: put_reached(answer.reached, answer.horizon, answer.iterations, out),
            next: Cursor::Counts,
        }
    }

    // The path line of the node at an index of their order; past the last of them the line of the marks. The path is listed in a buffer that is lent
    // for it.
    fn next_path(&self, at: usize, nodes: &mut [u16; MOST_NODES], out: &mut [u8]) -> Piece
        requires { line_room ≤ length out.old }
        ensures { NextLine (Path at) (printing self.now) out (Some result) }
    {
        let Some(&node) = self.order.get(at) else {
            return Piece {
                count: put_marks(tally_marks(self.marks), out),
                next: Cursor::End,
            };
        };
        let listed = paths::list_path(self.origin, node, self.tails, self.heads, self.tree, nodes);
        Piece {
            count: put_path(usize::from(node), &nodes[..listed.count as usize], out),
            next: Cursor::Path(at + 1),
        }
    }

    // The next node line, of the first node from a node on that has one; past the last of them what follows.
    fn next_node(&self, from: usize, nodes: &mut [u16; MOST_NODES], out: &mut [u8]) -> Piece
        requires { line_room ≤ length out.old }
        ensures { NextLine (Node from) (printing self.now) out (Some result) }
    {
        let Some(v) = self.next_with_distance(from) else {
            return self.next_path(0, nodes, out);
        };
        let price = self.prices.get(v).copied().unwrap_or(0);
        let arc = self.tree.get(v).copied().unwrap_or(NO_ARC);
        Piece {
            count: put_node(v, self.distances[v], price, arc, out),
            next: Cursor::Node(v + 1),
        }
    }

    // The first line: the refusal's where there is one, so where the number that C reads is not 0. It is the only one, but for "no route", on which a
    // plan is made all the same and its lines follow.
    fn first_line(&self, out: &mut [u8]) -> Piece
        requires { line_room ≤ length out.old }
        ensures { NextLine Start (printing self.now) out (Some result) }
    {
        let number = self.answer.number;
        if number == 0 {
            return self.reached_line(out);
        }
        Piece {
            count: put_refused(number, self.answer.place, out),
            next: if number == Fault::NoRoute.number() {
                Cursor::Reached
            } else {
                Cursor::End
            },
        }
    }

    // The next line of the sheet, from a cursor on, at the start of a buffer with room for a line; none where there is no line any more. A path is
    // listed in a buffer that is lent for it.
    pub(crate) fn next_line(
        &self,
        cursor: Cursor,
        nodes: &mut [u16; MOST_NODES],
        out: &mut [u8],
    ) -> Option<Piece>
        requires { line_room ≤ length out.old }
        ensures { NextLine cursor (printing self.now) out result }
    {
        match cursor {
            Cursor::Start => Some(self.first_line(out)),
            Cursor::Reached => Some(self.reached_line(out)),
            Cursor::Counts => {
                let answer = self.answer;
                Some(Piece {
                    count: put_counts(
                        answer.contractions,
                        answer.extensions,
                        answer.deletions,
                        out,
                    ),
                    next: Cursor::Node(0),
                })
            }
            Cursor::Node(from) => Some(self.next_node(from, nodes, out)),
            Cursor::Path(at) => Some(self.next_path(at, nodes, out)),
            Cursor::End => None,
        }
    }
}
