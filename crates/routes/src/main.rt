// The program: reads a link file from standard input, plans its routes and prints the sheet. It only moves bytes: what is printed of an input is defined
// in crates/sheet (specs/Printed.antt); the three calls that are made here are plan_input of input and order_paths of path_order, once each, and
// next_piece of printer, until there is no more.
#![tactic(auto)]

ghost use Rattle.std.specs.Prelude.{◌≤◌, length};
ghost use Rattle.sheet_lines.specs.Room.{line_room};
ghost use Rattle.input.specs.Lent.{Ready};
ghost use Rattle.printer.specs.Lines.{Prints};

use input::{MOST_INPUT, PlannedInput, Workspace};
use printer::{Cursor, FinishedPlan};
use table::{MOST_ARCS, MOST_NODES, MOST_WANTED};

// The system's numbers of the two streams, as the kit's `io` takes them.
const STANDARD_INPUT: i32 = 0;

const STANDARD_OUTPUT: i32 = 1;

// Prints the sheet of an input's plan, piece by piece. Where standard output takes no more, it stops. The input only says which sheet it is.
fn print_pieces(input: &[u8], plan: &FinishedPlan, out: &mut [u8])
    requires prints { Prints input.now plan.now }
    requires line_room_in_bounds { line_room ≤ length out.old }
{
    let mut cursor = Cursor::Start;
    while let Some(piece) = plan.next_piece(cursor, out) {
        if !io::write_all(STANDARD_OUTPUT, &out[..piece.count]) {
            return;
        }
        cursor = piece.next;
    }
}

// Puts the path lines of an input's plan in order, and prints its sheet. The counts become sizes as in `plan_read` of input, a line each: a function that
// gave the three would be no shorter.
fn print_plan(input: &[u8], planned: PlannedInput, lent: &Workspace)
    requires { Ready input.now planned lent.now }
{
    let read = planned.read;
    let n = read.n as usize;
    let m = read.arcs as usize;
    let w = read.wanted as usize;
    let mut order = [0u16; MOST_WANTED];
    let k = path_order::order_paths(&lent.distances[..n], &lent.wanted[..w], &mut order);
    let plan = FinishedPlan {
        answer: planned.answer,
        origin: read.origin,
        tails: &lent.tails[..m],
        heads: &lent.heads[..m],
        order: &order[..k],
        distances: &lent.distances[..n],
        prices: &lent.prices[..n],
        tree: &lent.tree[..n],
        marks: &lent.marks[..m],
    };
    let mut out = io::large_buffer();
    print_pieces(input, &plan, &mut out);
}

// Reads and plans the input, and prints its sheet. Without a heap there is room for every table.
fn print_input(input: &[u8]) {
    let mut lent = Workspace {
        tails: &mut [0; MOST_ARCS],
        heads: &mut [0; MOST_ARCS],
        lengths: &mut [0; MOST_ARCS],
        wanted: &mut [0; MOST_WANTED],
        distances: &mut [0; MOST_NODES],
        prices: &mut [0; MOST_NODES],
        tree: &mut [0; MOST_NODES],
        marks: &mut [0; MOST_ARCS],
    };
    let planned = lent.plan_input(input);
    print_plan(input, planned, &lent);
}

// One byte more than the longest input shows that an input is longer.
fn main() {
    let mut input = [0u8; MOST_INPUT + 1];
    let size = io::read_full(STANDARD_INPUT, &mut input);
    print_input(&input[..size]);
}
