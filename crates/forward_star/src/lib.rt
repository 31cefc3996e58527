// THE FORWARD STAR: the lists of each node's outgoing arcs, linked in table order. specs/Lists.antt says what they hold.
#![tactic(auto)]

pub mod linked;
pub mod star;

ghost use Rattle.std.specs.Prelude.{◌≡◌, ℕ, ◌≤◌, ◌<◌, length, get_or};
ghost use Rattle.table.specs.Table.{Table, no_arc, most_arcs};
ghost use Rattle.forward_star.specs.Lists.{Tails, Linked};

use table::DOWN;

// Links the arcs that leave the same node in table order, from the last arc to the first. An arc whose link is down is left out.
// The heads are not read, so what is taken is the two columns that are. The loop is over positions, since a position is what is stored.
pub fn link_arcs(tails: &[u16], lengths: &[u32], first: &mut [u16], next: &mut [u16])
    requires next_len { (length next.old ≡ length tails.now) × ((length lengths.now ≡ length tails.now) × (length tails.now ≤ most_arcs)) }
    requires tails_in { (i : ℕ) → i < length tails.now → get_or tails.now i 0 < length first.old }
    requires empty { (v : ℕ) → v < length first.old → get_or first.old v 0 ≡ no_arc }
    ensures { (t : Table) → t.n ≡ length first.old → Tails t tails.now lengths.now → Linked t first.new next.new }
{
    for p in (0..tails.len()).rev() {
        if lengths[p] != DOWN {
            let v = usize::from(tails[p]);
            next[p] = first[v];
            first[v] = p as u16;
        }
    }
}
