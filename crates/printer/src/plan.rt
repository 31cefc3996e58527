// What a sheet is printed from, and where in it the next line stands.
use hand_over::Planned;

// A plan that is finished, lent to be printed: its answer, its table's origin, tails and heads, the nodes that have a path line, in order, and the
// buffers that were filled. Nothing is asked of them: a sheet is printed of whatever they hold.
#[derive(Clone, Copy)]
pub struct FinishedPlan<'a> {
    pub answer: Planned,
    pub origin: u16,
    pub tails: &'a [u16],
    pub heads: &'a [u16],
    pub order: &'a [u16],
    pub distances: &'a [u64],
    pub prices: &'a [u64],
    pub tree: &'a [u16],
    pub marks: &'a [u8],
}

// Where in a sheet the next line stands: at its start; at the line of the reached nodes; at the line of the other counts; at the line of the first
// node that has one, from a node on, and past the last of these at the first path line; at the path line of the node at an index of their order, and
// past the last of these at the line of the marks; or past all lines. Without a heap there is no closure that could be kept in its place.
#[derive(Clone, Copy)]
pub enum Cursor {
    Start,
    Reached,
    Counts,
    Node(usize),
    Path(usize),
    End,
}

// One line or more, put at the start of a buffer: how many bytes they have, and the cursor of the line behind them. A count and no slice, since the next
// line goes behind them in the same buffer.
#[derive(Clone, Copy)]
pub struct Piece {
    pub count: usize,
    pub next: Cursor,
}
