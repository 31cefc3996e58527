// The least bid of a node's children.
ghost use Rattle.std.specs.Prelude.{◌≡◌, List, ℕ, ◌≤◌, ◌<◌, length, get_or};
ghost use Rattle.table.specs.Table.{Table, head_at, length_at, no_arc};
ghost use Rattle.auction.specs.Auction.{best};
ghost use Rattle.forward_star.specs.Lent.{IsStarOf};
ghost use Rattle.steps.specs.declared.state.Progress.{Progress};
ghost use Rattle.steps.specs.Seen.{run_of, held, prices_in, greatest_sum};
ghost use Rattle.steps.specs.Steps.{bid_in, lower_of, bid_over};

use super::state::Node;
use forward_star::star::ForwardStar;
use table::NO_ARC;

// A bid's value and the position of the child's kept arc.
#[derive(Clone, Copy)]
pub struct LeastBid {
    pub value: u64,
    pub arc: u16,
}

// The lower of the bids met so far and the one over the arc at a position, where that leads to a child. Not by an order of bids: among equals the one that
// was met first stays, whatever its position.
fn lower_bid(
    least: Option<LeastBid>,
    position: u16,
    head: usize,
    arc_length: u32,
    nodes: &[Node],
) -> Option<LeastBid>
    requires head_bound { head < length nodes.now }
    requires position_lt_no_arc { (position < no_arc) × (get_or (prices_in nodes.now) head 0 ≤ greatest_sum) }
    ensures { (t : Table) (path : List ℕ) (g : Progress) → head_at t position ≡ head → length_at t position ≡ arc_length →
        bid_in result ≡ lower_of (bid_in least) (bid_over t position (held (run_of path nodes.now g))) }
{
    let node = nodes[head];
    if node.kept != position || node.status.is_deleted() {
        return least;
    }
    let bid = LeastBid {
        value: u64::from(arc_length) + node.price,
        arc: position,
    };
    match least {
        None => Some(bid),
        Some(lower) if lower.value <= bid.value => least,
        Some(_) => Some(bid),
    }
}

// A scan: the least bid of a node's children, the lowest position among equals. Only the node's own arcs are looked at: the loop follows their list from
// position to position. So do `offer_arcs` and keeper's `step_length`; it is three lines in each, and an Iterator of our own, with its law and with what a
// `for` knows of it, would be no plainer.
pub fn least_bid(v: usize, star: &ForwardStar, nodes: &[Node]) -> Option<LeastBid>
    requires nodes_len { length nodes.now ≡ length star.now.first.now }
    requires v_in_bounds { (v < length star.now.first.now) × ((u : ℕ) → get_or (prices_in nodes.now) u 0 ≤ greatest_sum) }
    ensures { (t : Table) (path : List ℕ) (g : Progress) → IsStarOf t star.now → bid_in result ≡ best t v (held (run_of path nodes.now g)) }
{
    let heads = star.columns.heads;
    let lengths = star.columns.lengths;
    let next = star.next;
    let mut least = None;
    let mut p = star.first[v];
    while p != NO_ARC {
        let i = usize::from(p);
        let head = usize::from(heads[i]);
        least = lower_bid(least, p, head, lengths[i], nodes);
        p = next[i];
    }
    least
}
