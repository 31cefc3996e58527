// The run: iterations until every wanted node has been reached, the origin's price is above a limit, or the origin has no children. The path and the nodes
// are lent one by one, as in a step (see `RunState`), so that each function asks for their length itself.
ghost use Rattle.std.specs.Prelude.{◌≡◌, List, ℕ, ◌≤◌, ◌<◌, length, get_or};
ghost use Rattle.table.specs.Lent.{table_in};
ghost use Rattle.auction.specs.Auction.{fresh, start};
ghost use Rattle.steps.specs.declared.state.Progress.{Progress};
ghost use Rattle.steps.specs.Seen.{run_of, held, statuses_in};
ghost use Rattle.steps.specs.Memory.{AllForgotten};
ghost use Rattle.solver.specs.Runs.{RanWithin, FirstFrom, is_above};

use forward_star::linked::{LinkedTable, with_star};
use steps::bids::{LeastBid, least_bid};
use steps::reaching::reach;
use steps::state::{NO_NODE, Node, Progress, RunEnd};
use steps::steps::{extend, step};
use table::links::LinkTable;

// A limit that no price is above; a number, so that the loop has one test for a plan and for a limit.
pub const NO_LIMIT: u64 = u64::MAX;

// The index of the first wanted node, from an index on, that has not been reached, or their number. The index is the answer, and no
// Option: the search goes on from it.
fn first_unreached(from: usize, wanted: &[u16], nodes: &[Node]) -> usize
    requires { (from ≤ length wanted.now) × ((k : ℕ) → k < length wanted.now → get_or wanted.now k 0 < length nodes.now) }
    ensures { FirstFrom from wanted.now (statuses_in nodes.now) result }
{
    for w in from..wanted.len() {
        let v = usize::from(wanted[w]);
        if !nodes[v].status.was_reached() {
            return w;
        }
    }
    wanted.len()
}

// Whether a bid is above a limit; where there is no bid it is not.
fn is_above(limit: u64, least: Option<LeastBid>) -> bool
    ensures { result ≡ is_above limit least }
{
    match least {
        None => false,
        Some(bid) => limit < bid.value,
    }
}

// The iterations from the start, until every wanted node has been reached, the origin's price is above the limit, or the origin has no
// child. A node that remembers a child goes on to it; one that does not scans its children. Where the path is as long as before, the
// origin's price has become the least bid, and no other iteration changes it, so the limit is held against that bid; the wanted nodes are
// looked at where the path is longer, since no other iteration reaches a node. The loop has no cap: it ends because the auction does, and
// its measure is the auction's own bound less the iterations made.
fn iterate(
    begun: Progress,
    limit: u64,
    linked: &LinkedTable,
    path: &mut [u16],
    nodes: &mut [Node],
) -> RunEnd
    requires long { (length path.old ≡ linked.now.table.n) × (length nodes.old ≡ linked.now.table.n) }
    requires begun { held (run_of path.old nodes.old begun) ≡ start (table_in linked.now.table) }
    requires forgotten { AllForgotten nodes.old }
    ensures { RanWithin (table_in linked.now.table) linked.now.table.wanted.now limit result.missing result.scans
        (held (run_of path.new nodes.new result.progress)) }
{
    let star = &linked.star;
    let wanted = linked.table.wanted;
    let origin = usize::from(linked.table.origin);
    let mut g = begun;
    let mut scans = 0;
    let mut w = first_unreached(0, wanted, nodes);
    while w < wanted.len() {
        let depth = g.depth;
        let v = usize::from(path[depth - 1]);
        let child = nodes[v].remembered;
        if child != NO_NODE {
            g = extend(g, child, star, path, nodes);
        } else {
            let least = least_bid(v, star, nodes);
            if least.is_none() && v == origin {
                return RunEnd {
                    missing: w,
                    scans,
                    progress: g,
                };
            }
            scans += 1;
            g = step(g, v, least, origin, star, path, nodes);
            if is_above(limit, least) && depth == g.depth {
                return RunEnd {
                    missing: w,
                    scans,
                    progress: g,
                };
            }
        }
        if depth < g.depth {
            w = first_unreached(w, wanted, nodes);
        }
    }
    RunEnd {
        missing: w,
        scans,
        progress: g,
    }
}

// The run from the fresh state: the origin is reached, then iterations follow.
fn run_linked(
    begun: Progress,
    limit: u64,
    linked: &LinkedTable,
    path: &mut [u16],
    nodes: &mut [Node],
) -> RunEnd
    requires long { (length path.old ≡ linked.now.table.n) × (length nodes.old ≡ linked.now.table.n) }
    requires begun { held (run_of path.old nodes.old begun) ≡ fresh (table_in linked.now.table) }
    requires forgotten { AllForgotten nodes.old }
    ensures { RanWithin (table_in linked.now.table) linked.now.table.wanted.now limit result.missing result.scans
        (held (run_of path.new nodes.new result.progress)) }
{
    let origin = usize::from(linked.table.origin);
    reach(origin, &linked.star, nodes);
    iterate(begun, limit, linked, path, nodes)
}

// Every node forgets its child; the state that is held stays as it is.
fn forget_all(nodes: &mut [Node])
    ensures forgotten { AllForgotten nodes.new }
    ensures held { (path : List ℕ) (g : Progress) → held (run_of path nodes.new g) ≡ held (run_of path nodes.old g) }
{
    for node in nodes.iter_mut() {
        node.remembered = NO_NODE;
    }
}

// The whole run within a limit, from the fresh state that is lent to the state where it ends. The nodes forget within the call, so that nothing is asked
// of what they remember.
pub fn run(
    begun: Progress,
    limit: u64,
    table: &LinkTable,
    path: &mut [u16],
    nodes: &mut [Node],
) -> RunEnd
    requires long { (length path.old ≡ table.now.n) × (length nodes.old ≡ table.now.n) }
    requires begun { held (run_of path.old nodes.old begun) ≡ fresh (table_in table.now) }
    ensures { RanWithin (table_in table.now) table.now.wanted.now limit result.missing result.scans (held (run_of path.new nodes.new result.progress)) }
{
    with_star(
        table,
        &mut |linked| {
            forget_all(nodes);
            run_linked(begun, limit, linked, path, nodes)
        },
    )
}
