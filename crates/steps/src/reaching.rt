// Reaching a node: its outgoing arcs are offered to their heads, in table order.
ghost use Rattle.std.specs.Prelude.{◌≡◌, List, ℕ, ◌+◌, ◌≤◌, ◌<◌, length, get_or};
ghost use Rattle.table.specs.Table.{Table, arc_count, no_arc, no_distance};
ghost use Rattle.auction.specs.Auction.{improves, offers, reach};
ghost use Rattle.forward_star.specs.Lent.{IsStarOf};
ghost use Rattle.steps.specs.declared.state.Progress.{Progress};
ghost use Rattle.steps.specs.Seen.{bound_of, arc_of, run_of, greatest_sum, bounds_in, statuses_in};
ghost use Rattle.steps.specs.Memory.{without_tail, KeptIn, Ready, Remembers, but};
ghost use Rattle.steps.specs.Steps.{Becomes, offered_arc};

use super::state::{NO_NODE, Node, Status};
use forward_star::star::ForwardStar;
use table::NO_ARC;

// Whether a bound offered by the arc at a position is to be kept: it is smaller, or equal and from a lower position. A node that has
// no bound takes any. Not by the order of pairs: at an equal bound a node that keeps no arc takes none.
fn improves(offered: u64, position: u16, bound: u64, kept: u16) -> bool
    requires { offered < no_distance }
    ensures { result ≡ improves offered position (bound_of bound) (arc_of kept) }
{
    if offered == bound {
        return position < kept && kept != NO_ARC;
    }
    offered < bound
}

// An arc is given up: the node that it leaves has lost a child, so it forgets the child that it remembers and scans again.
fn forget_tail(arc: u16, tails: &[u16], nodes: &mut [Node])
    requires { (arc ≡ no_arc → ⊥) → (arc < length tails.now) × (get_or tails.now arc 0 < length nodes.old) }
    ensures { nodes.new ≡ without_tail arc tails.now nodes.old }
{
    if arc != NO_ARC {
        let u = usize::from(tails[usize::from(arc)]);
        nodes[u].remembered = NO_NODE;
    }
}

// Offers one arc to its head, which keeps it where it is unreached and the offer improves its bound, and gives up the arc that it kept.
fn offer(head: usize, position: u16, offered: u64, tails: &[u16], nodes: &mut [Node])
    requires head_in_bounds { head < length nodes.old }
    requires offered_lt_no_distance { offered < no_distance }
    requires kept_in { KeptIn tails.now nodes.old }
    ensures { nodes.new ≡ offered_arc head position offered tails.now nodes.old }
{
    let node = nodes[head];
    if !node.status.was_reached() && improves(offered, position, node.bound, node.kept) {
        forget_tail(node.kept, tails, nodes);
        let node = &mut nodes[head];
        node.bound = offered;
        node.kept = position;
    }
}

// Offers every arc out of a reached node, whose distance is given, in table order: only the node's own arcs are looked at, along their list as in a scan.
fn offer_arcs(v: usize, distance: u64, star: &ForwardStar, nodes: &mut [Node])
    requires ready { Ready star.now nodes.old }
    requires v_in_bounds { (v < length star.now.first.now) × (distance ≤ greatest_sum) }
    requires distance { (0 < get_or (statuses_in nodes.old) v 0) × (get_or (bounds_in nodes.old) v 0 ≡ distance) }
    ensures offers { (t : Table) (path : List ℕ) (g : Progress) → IsStarOf t star.now →
        Becomes (offers (arc_count t) 0 t v) (run_of path nodes.old g) (run_of path nodes.new g) }
    ensures remembers { (path : List ℕ) (g : Progress) → Remembers star.now (but v) (run_of path nodes.old g) (run_of path nodes.new g) }
{
    let tails = star.columns.tails;
    let heads = star.columns.heads;
    let lengths = star.columns.lengths;
    let next = star.next;
    let mut p = star.first[v];
    while p != NO_ARC {
        let i = usize::from(p);
        let head = usize::from(heads[i]);
        let arc_length = u64::from(lengths[i]);
        offer(head, p, distance + arc_length, tails, nodes);
        p = next[i];
    }
}

// Marks a node as reached, which fixes its distance, and offers its arcs. No price is read, nor by an extension, so that what is said of the nodes' own
// prices holds of any (proofs/Unread.antt).
pub fn reach(v: usize, star: &ForwardStar, nodes: &mut [Node])
    requires ready { Ready star.now nodes.old }
    requires v_in_bounds { (v < length star.now.first.now) × (get_or (bounds_in nodes.old) v 0 ≤ greatest_sum) }
    ensures reaches { (t : Table) (path : List ℕ) (g : Progress) → IsStarOf t star.now →
        Becomes (reach t v) (run_of path nodes.old g) (run_of path nodes.new g) }
    ensures remembers { (path : List ℕ) (g : Progress) → get_or (statuses_in nodes.old) v 0 ≡ 0 →
        Remembers star.now (but v) (run_of path nodes.old g) (run_of path nodes.new g) }
{
    nodes[v].status = Status::Reached;
    let distance = nodes[v].bound;
    offer_arcs(v, distance, star, nodes);
}
