// An iteration: a deletion, a contraction or an extension at the terminal node.
ghost use Rattle.std.specs.Prelude.{◌≡◌, List, ℕ, ◌≤◌, ◌<◌, length, get_or};
ghost use Rattle.table.specs.Table.{Table};
ghost use Rattle.auction.specs.Auction.{deletion, contraction, extension};
ghost use Rattle.forward_star.specs.Lent.{IsStarOf};
ghost use Rattle.steps.specs.Seen.{run_of, bounds_in, memory_in, iterations_in, greatest_sum, too_many};
ghost use Rattle.steps.specs.Memory.{before, forgetting, HasBefore, Ready, Remembers, Remembered, those_reached};
ghost use Rattle.steps.specs.Steps.{Becomes, CanStep, Steps};

use super::bids::LeastBid;
use super::reaching::reach;
use super::state::{NO_NODE, Node, Progress, Status};
use forward_star::star::ForwardStar;

// The node before the terminal one on the path forgets the child that it remembers, which is the terminal node: it scans again.
fn forget_before(depth: usize, path: &[u16], nodes: &mut [Node])
    requires { HasBefore depth path.now nodes.old }
    ensures { nodes.new ≡ forgetting (before depth path.now) nodes.old }
{
    let u = usize::from(path[depth - 2]);
    nodes[u].remembered = NO_NODE;
}

// A node without children is deleted and leaves the path; the node before it scans again.
fn delete(g: Progress, v: usize, path: &[u16], nodes: &mut [Node]) -> Progress
    requires has_before { HasBefore g.depth path.now nodes.old }
    requires v_in_bounds { (v < length nodes.old) × (g.deletions < too_many) }
    ensures deletes { Becomes (deletion v) (run_of path.now nodes.old g) (run_of path.now nodes.new result) }
    ensures remembers { memory_in nodes.new ≡ memory_in (forgetting (before g.depth path.now) nodes.old) }
{
    forget_before(g.depth, path, nodes);
    nodes[v].status = Status::Deleted;
    Progress {
        depth: g.depth - 1,
        deletions: g.deletions + 1,
        ..g
    }
}

// A node's price becomes the least bid. It leaves the path, unless it is the origin; the node before it then scans again.
fn contract(
    g: Progress,
    v: usize,
    origin: usize,
    value: u64,
    path: &[u16],
    nodes: &mut [Node],
) -> Progress
    requires v_in_bounds { (1 ≤ g.depth) × ((v < length nodes.old) × (g.contractions < too_many)) }
    requires has_before { (v ≡ origin → ⊥) → HasBefore g.depth path.now nodes.old }
    ensures contracts { (t : Table) → t.origin ≡ origin → Becomes (contraction t v value) (run_of path.now nodes.old g) (run_of path.now nodes.new result) }
    ensures at_origin { v ≡ origin → memory_in nodes.new ≡ memory_in nodes.old }
    ensures remembers { (v ≡ origin → ⊥) → memory_in nodes.new ≡ memory_in (forgetting (before g.depth path.now) nodes.old) }
{
    nodes[v].price = value;
    let contracted = Progress {
        contractions: g.contractions + 1,
        ..g
    };
    if v == origin {
        return contracted;
    }
    forget_before(g.depth, path, nodes);
    Progress {
        depth: g.depth - 1,
        ..contracted
    }
}

// The path is extended by a child, which is reached where it has not been reached before.
pub fn extend(
    g: Progress,
    child: u16,
    star: &ForwardStar,
    path: &mut [u16],
    nodes: &mut [Node],
) -> Progress
    requires ready { Ready star.now nodes.old }
    requires child_in_bounds { (child < length star.now.first.now) × (get_or (bounds_in nodes.old) child 0 ≤ greatest_sum) }
    requires room { (g.depth < length path.old) × (g.extensions < too_many) }
    ensures extends { (t : Table) → IsStarOf t star.now →
        Becomes (extension t child) (run_of path.old nodes.old g) (run_of path.new nodes.new result) }
    ensures remembers { Remembers star.now those_reached (run_of path.old nodes.old g) (run_of path.new nodes.new result) }
{
    path[g.depth] = child;
    let longer = Progress {
        depth: g.depth + 1,
        extensions: g.extensions + 1,
        ..g
    };
    let v = usize::from(child);
    if !nodes[v].status.was_reached() {
        reach(v, star, nodes);
    }
    longer
}

// One iteration at the terminal node, whose least bid is given: a deletion where it has no child, a contraction where its price is
// below the bid, else an extension. Where it has a child it remembers the one whose bid that is.
pub fn step(
    g: Progress,
    v: usize,
    least: Option<LeastBid>,
    origin: usize,
    star: &ForwardStar,
    path: &mut [u16],
    nodes: &mut [Node],
) -> Progress
    requires ready { Ready star.now nodes.old }
    requires v_in_bounds { (v < length star.now.first.now) × ((1 ≤ g.depth) × (iterations_in g < too_many)) }
    requires can_step { CanStep v origin least star.now (run_of path.old nodes.old g) }
    requires has_before { (v ≡ origin → ⊥) → HasBefore g.depth path.old nodes.old }
    ensures steps { Steps v origin least star.now (run_of path.old nodes.old g) (run_of path.new nodes.new result) }
    ensures remembers { Remembered v origin least star.now (run_of path.old nodes.old g) (run_of path.new nodes.new result) }
{
    let Some(bid) = least else {
        return delete(g, v, path, nodes);
    };
    let heads = star.columns.heads;
    let child = heads[usize::from(bid.arc)];
    let price = nodes[v].price;
    nodes[v].remembered = child;
    if price < bid.value {
        return contract(g, v, origin, bid.value, path, nodes);
    }
    extend(g, child, star, path, nodes)
}
