// The state of a run: the nodes and the path, which are lent to small functions, and numbers that travel by value.
ghost use Rattle.std.specs.Prelude.{◌≡◌, ℕ, ◌≤◌, ◌<◌, length, ltb, eqb};
ghost use Rattle.table.specs.Table.{Table, most_nodes};
ghost use Rattle.auction.specs.Auction.{fresh, unreached, deleted};
ghost use Rattle.steps.specs.Seen.{status_number, iterations_in, first_of, held, too_many};

use table::{MOST_NODES, NO_ARC, NO_DISTANCE};

// What a node remembers where it has to scan; a number, as the node's other entries that may be missing (see `Node`).
pub const NO_NODE: u16 = 65535;

// Whether a node has been reached, and deleted since.
#[derive(Clone, Copy)]
pub enum Status {
    Unreached,
    Reached,
    Deleted,
}

impl Status {
    // A deleted node has been reached before. By its arms, of which each has its number of the auction by definition, as the contract has it; of a derived
    // == that would have to be shown.
    pub fn was_reached(self) -> bool
        ensures { result ≡ ltb unreached (status_number self) }
    {
        match self {
            Status::Unreached => false,
            Status::Reached | Status::Deleted => true,
        }
    }

    pub fn is_deleted(self) -> bool
        ensures { result ≡ eqb (status_number self) deleted }
    {
        match self {
            Status::Unreached | Status::Reached => false,
            Status::Deleted => true,
        }
    }
}

// A node: its price, its bound, the position of its kept arc, the child that it remembers and its status. Positions and nodes that are not there are told
// by NO_ARC, NO_DISTANCE and NO_NODE, as in the columns that are handed over, which are filled from here: an Option would be taken apart into the same
// numbers there. The remembered child is told as the others are, and takes half of an Option's room.
#[derive(Clone, Copy)]
pub struct Node {
    pub price: u64,
    pub bound: u64,
    pub kept: u16,
    pub remembered: u16,
    pub status: Status,
}

impl Node {
    // Room for a node, of which nothing is read.
    const ROOM: Node = Node {
        price: 0,
        bound: 0,
        kept: 0,
        remembered: 0,
        status: Status::Unreached,
    };

    // A node before anything is reached.
    pub const FRESH: Node = Node {
        price: 0,
        bound: NO_DISTANCE,
        kept: NO_ARC,
        remembered: NO_NODE,
        status: Status::Unreached,
    };
}

// How many nodes are on the path, and the three counts.
#[derive(Clone, Copy)]
pub struct Progress {
    pub depth: usize,
    pub contractions: u64,
    pub extensions: u64,
    pub deletions: u64,
}

impl Progress {
    // How many iterations have been made.
    pub fn iterations(self) -> u64
        requires { iterations_in self < too_many }
        ensures { result ≡ iterations_in self }
    {
        self.contractions + self.extensions + self.deletions
    }
}

// Where a run has ended: the index of the first wanted node that was not reached, which is their number where all were; the scans and
// the other counts. The index is no Option: the auction's definition has their number too, and each caller asks whether it is their number.
#[derive(Clone, Copy)]
pub struct RunEnd {
    pub missing: usize,
    pub scans: u64,
    pub progress: Progress,
}

// The path from the origin on, with room for the most nodes, as many as the progress says; the nodes; the progress. Without a heap both have room for every
// table. The path's depth is no length of an ArrayVec: it travels by value, with the counts. The functions of a run take the three one by one, not as one
// struct by `&mut`: each is lent just what it writes, so that what it cannot write needs no clause. What a step relies on of them (that the node before the
// terminal one can be looked up, that numbers are small) is of values that change from step to step, so it stands in the contracts.
#[derive(Drop)]
pub struct RunState {
    pub path: [u16; MOST_NODES],
    pub nodes: [Node; MOST_NODES],
    pub progress: Progress,
}

impl RunState {
    // The state before anything is reached, for any number of nodes above the origin, up to n. No more are made fresh: a small table would wait longer for
    // those that it has no use for than for its plan (DECISIONS N12).
    pub fn fresh(origin: u16, n: usize) -> RunState
        requires { (origin < most_nodes) × (n ≤ most_nodes) }
        ensures so { (t : Table) → t.origin ≡ origin → t.origin < t.n → t.n ≤ n → held (first_of t.n result) ≡ fresh t }
        ensures long { (length result.path ≡ most_nodes) × (length result.nodes ≡ most_nodes) }
    {
        let mut path = [0; MOST_NODES];
        path[0] = origin;
        let mut nodes = [Node::ROOM; MOST_NODES];
        nodes[..n].fill(Node::FRESH);
        let at = usize::from(origin);
        nodes[at] = Node {
            bound: 0,
            ..Node::FRESH
        };
        let progress = Progress {
            depth: 1,
            contractions: 0,
            extensions: 0,
            deletions: 0,
        };
        RunState {
            path,
            nodes,
            progress,
        }
    }
}
