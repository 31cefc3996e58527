// The hand-over: from the nodes where a run has ended, the answer and what the four buffers hold: a distance, a price and a tree arc for
// each node, a mark for each arc.
#![tactic(auto)]

ghost use Rattle.std.specs.Prelude.{◌≡◌, cond, ℕ, ◌≤◌, ◌<◌, ◌==◌, ltb, length, get_or};
ghost use Rattle.table.specs.Table.{no_arc, most_nodes, most_wanted};
ghost use Rattle.table.specs.Refusals.{no_refusal, refusal};
ghost use Rattle.table.specs.Told.{number, told};
ghost use Rattle.auction.specs.Auction.{unreached};
ghost use Rattle.auction.specs.HandOver.{horizon, reached_count, mark_number};
ghost use Rattle.steps.specs.Seen.{status_number, iterations_in, too_many};
ghost use Rattle.hand_over.specs.Answered.{answered_in, nothing_planned};
ghost use Rattle.hand_over.specs.ReadOff.{Known, ArcEnds, Fitting, SameBuffers, NoneFarther, ReadOff, HandsOver, price_entry, mark_entry};

use steps::state::{Node, RunEnd};
use table::faults::{Fault, Refusal};
use table::links::Columns;
use table::{DOWN, NO_ARC, NO_DISTANCE};

// Number and place of a refusal, number 0 where there is none; nodes reached, horizon and the counts of the run. C reads it, so it is
// numbers and no Result.
#[repr(C)]
#[derive(Clone, Copy)]
pub struct Planned {
    pub number: u32,
    pub place: u32,
    pub reached: u32,
    pub horizon: u64,
    pub iterations: u64,
    pub contractions: u64,
    pub extensions: u64,
    pub deletions: u64,
    pub scans: u64,
}

impl Planned {
    // The answer where nothing is planned. It takes numbers: those of a refused file are C's already.
    pub fn nothing(number: u32, place: u32) -> Planned
        ensures { result ≡ nothing_planned number place }
    {
        Planned {
            number,
            place,
            reached: 0,
            horizon: 0,
            iterations: 0,
            contractions: 0,
            extensions: 0,
            deletions: 0,
            scans: 0,
        }
    }
}

impl From<Refusal> for Planned {
    fn from(refusal: Refusal) -> Planned
        ensures { result ≡ nothing_planned (number refusal.fault) refusal.place }
    {
        Planned::nothing(refusal.fault.number(), refusal.place)
    }
}

// The four buffers that are lent for an answer: a distance, a price and a tree arc for each node, a mark for each arc.
#[derive(Drop)]
pub struct Buffers<'a> {
    pub distances: &'a mut [u64],
    pub prices: &'a mut [u64],
    pub tree: &'a mut [u16],
    pub marks: &'a mut [u8],
}

// One entry for a node that was reached, another for one that was not.
fn entry<T: Copy>(node: Node, reached: T, other: T) -> T
    ensures { result ≡ cond (ltb unreached (status_number node.status)) reached other }
{
    if node.status.was_reached() {
        reached
    } else {
        other
    }
}

// Makes each entry of a column by its index.
fn fill<T: Copy, F: Fn(usize) -> T>(column: &mut [T], entry: F)
    requires { (i : ℕ) → i < length column.old → F.pre entry i }
    ensures { (i : ℕ) (d : T) → i < length column.new → F.post entry i (get_or column.new i d) }
{
    for (i, slot) in column.iter_mut().enumerate() {
        *slot = entry(i);
    }
}

// The horizon: the largest distance reached.
fn horizon_of(nodes: &[Node]) -> u64
    requires { Known nodes.now }
    ensures so { ReadOff horizon nodes.now result }
    ensures above { NoneFarther result nodes.now }
{
    nodes
        .iter()
        .filter(|node| node.status.was_reached())
        .map(|node| node.bound)
        .max()
        .unwrap_or(0)
}

// How many nodes have been reached.
fn count_reached(nodes: &[Node]) -> u32
    requires { length nodes.now ≤ most_nodes }
    ensures { ReadOff reached_count nodes.now result }
{
    nodes
        .iter()
        .filter(|node| node.status.was_reached())
        .count() as u32
}

// An arc's mark, by whether its head and its tail have been reached and whether it is its head's kept arc. C reads marks as bytes, so
// they are the numbers 0 to 3.
#[tactic(auto, unfolding(auction::specs::HandOver::mark_number))]
fn mark(head: bool, tail: bool, kept: bool) -> u8
    ensures { result ≡ mark_number head tail kept }
{
    match (head, tail, kept) {
        // the tree arc of a reached node
        (true, _, true) => 3,
        // another arc into a reached node, or out of one and not kept
        (true, _, false) | (false, true, false) => 1,
        // kept into an unreached node
        (false, true, true) => 2,
        // both ends unreached
        (false, false, _) => 0,
    }
}

// The mark of the arc at a position.
fn mark_at(i: usize, columns: Columns, nodes: &[Node]) -> u8
    requires arc_ends { ArcEnds columns nodes.now }
    requires i_in_bounds { i < length columns.heads.now }
    ensures { result ≡ mark_entry columns.entry nodes.now i }
{
    let arc = columns.arc(i);
    // set aside from the start: the link is down
    if arc.length == DOWN {
        return 1;
    }
    let head = nodes[usize::from(arc.head)];
    let tail = nodes[usize::from(arc.tail)];
    mark(
        head.status.was_reached(),
        tail.status.was_reached(),
        usize::from(head.kept) == i,
    )
}

// A node's price: the horizon less its distance, and 0 for one that was not reached.
fn price_at(v: usize, horizon: u64, nodes: &[Node]) -> u64
    requires { (v < length nodes.now) × NoneFarther horizon nodes.now }
    ensures { result ≡ price_entry horizon nodes.now v }
{
    let node = nodes[v];
    horizon - entry(node, node.bound, horizon)
}

// "No route" to the first wanted node that is missing, where one is.
fn route(missing: usize, wanted: usize) -> Result<(), Refusal>
    requires { missing ≤ most_wanted }
    ensures { told result ≡ cond (missing == wanted) no_refusal (refusal 8 missing) }
{
    if missing == wanted {
        return Ok(());
    }
    Err(Fault::NoRoute.at(missing))
}

// A refusal's number and place, 0 and 0 where there is none: the answer to C has them as numbers.
#[tactic(auto, unfolding(table::specs::Refusals::no_refusal))]
fn told(answer: Result<(), Refusal>) -> (u32, u32)
    ensures { refusal result.0 result.1 ≡ told answer }
{
    match answer {
        Ok(()) => (0, 0),
        Err(refusal) => (refusal.fault.number(), refusal.place),
    }
}

// The answer and the four buffers, from where a run has ended.
pub fn hand_over(
    end: RunEnd,
    wanted: usize,
    columns: Columns,
    nodes: &[Node],
    buffers: &mut Buffers,
) -> Planned
    requires known { Known nodes.now }
    requires arc_ends { ArcEnds columns nodes.now }
    requires fitting { Fitting (length nodes.now) (length columns.heads.now) buffers.old }
    requires few { (end.missing ≤ most_wanted) × (iterations_in end.progress < too_many) }
    ensures same { SameBuffers buffers.old buffers.new }
    ensures answer { HandsOver end wanted columns.entry nodes.now (answered_in result buffers.new) }
{
    let horizon = horizon_of(nodes);
    fill(
        buffers.distances,
        |v| entry(nodes[v], nodes[v].bound, NO_DISTANCE),
    );
    fill(buffers.prices, |v| price_at(v, horizon, nodes));
    fill(buffers.tree, |v| entry(nodes[v], nodes[v].kept, NO_ARC));
    fill(buffers.marks, |i| mark_at(i, columns, nodes));
    let (number, place) = told(route(end.missing, wanted));
    let counts = end.progress;
    Planned {
        number,
        place,
        reached: count_reached(nodes),
        horizon,
        iterations: counts.iterations(),
        contractions: counts.contractions,
        extensions: counts.extensions,
        deletions: counts.deletions,
        scans: end.scans,
    }
}
