// The refusals 1 to 7 of a table, in the order in which they are tested.
#![tactic(auto)]

ghost use Rattle.std.specs.Prelude.{◌≡◌, not, cond, length, IfOk, MatchOption};
ghost use Rattle.table.specs.Table.{arcs_of};
ghost use Rattle.table.specs.Refusals.{refusal, no_refusal, rooms_fit, arc_fault, arcs_refusal, wanted_refusal, table_refusal};
ghost use Rattle.table.specs.Told.{number, told};
ghost use Rattle.table.specs.Lent.{arc_of};
ghost use Rattle.refusals.specs.Lent.{lent_rooms};

use table::faults::{Fault, Refusal};
use table::links::{Arc, Columns, LinkTable};
use table::{check_columns, check_count, check_node, check_wanted_count};

// The lengths of the four buffers of an answer; lengths alone, since who asks for a limit lends no buffers.
#[derive(Clone, Copy, PartialEq, Eq)]
pub struct Rooms {
    pub distances: usize,
    pub prices: usize,
    pub tree: usize,
    pub marks: usize,
}

impl Rooms {
    // Those that a table needs: an entry for each node, and a mark for each arc.
    pub fn needed(nodes: usize, arcs: usize) -> Rooms
        ensures { (result.distances ≡ nodes) × (result.prices ≡ nodes) × (result.tree ≡ nodes) × (result.marks ≡ arcs) }
    {
        Rooms {
            distances: nodes,
            prices: nodes,
            tree: nodes,
            marks: arcs,
        }
    }
}

// 3: the buffers that are lent are as long as they have to be.
fn check_rooms(nodes: usize, arcs: usize, lent: Rooms) -> Result<(), Refusal>
    ensures { told result ≡ cond (not (rooms_fit (lent_rooms nodes arcs lent))) (refusal 3 0) no_refusal }
{
    if lent != Rooms::needed(nodes, arcs) {
        return Err(Fault::Buffers.at(0));
    }
    Ok(())
}

// 5: not too many wanted nodes, each of them below n.
fn check_wanted(n: usize, wanted: &[u16]) -> Result<(), Refusal>
    ensures { told result ≡ wanted_refusal n wanted.now }
{
    check_wanted_count(wanted.len())?;
    for (i, node) in wanted.iter().enumerate() {
        if n <= usize::from(*node) {
            return Err(Fault::Wanted.at(i));
        }
    }
    Ok(())
}

// What is wrong with an arc, its ends before its length.
fn fault_of_arc(n: usize, arc: Arc) -> Option<Fault>
    ensures { MatchOption result (arc_fault n (arc_of arc) ≡ 0) (λ fault. number fault ≡ arc_fault n (arc_of arc)) }
{
    if n <= usize::from(arc.tail) || n <= usize::from(arc.head) {
        return Some(Fault::ArcEnd);
    }
    if arc.length == 0 {
        return Some(Fault::ArcLength);
    }
    None
}

// 6 and 7: the first arc with a fault.
fn check_arcs(n: usize, columns: Columns) -> Result<(), Refusal>
    ensures { told result ≡ arcs_refusal n (arcs_of columns.entry.tails.now columns.entry.heads.now columns.entry.lengths.now) }
{
    for i in 0..columns.tails.len() {
        if let Some(fault) = fault_of_arc(n, columns.arc(i)) {
            return Err(fault.at(i));
        }
    }
    Ok(())
}

// 1 to 7 in order: the table, with buffers of these lengths lent for the answer. Here what C lends one by one becomes a table.
pub fn check_table<'a>(
    n: u32,
    origin: u16,
    tails: &'a [u16],
    heads: &'a [u16],
    lengths: &'a [u32],
    wanted: &'a [u16],
    lent: Rooms,
) -> Result<LinkTable<'a>, Refusal>
    ensures told { told result ≡ table_refusal n origin tails.now heads.now lengths.now wanted.now (lent_rooms n (length tails.now) lent) }
    ensures nodes { IfOk result (λ t. (t.n ≡ n) × (t.origin ≡ origin) × (t.wanted.now ≡ wanted.now)) }
    ensures columns { IfOk result (λ t.
        (t.columns.tails.now ≡ tails.now) × (t.columns.heads.now ≡ heads.now) × (t.columns.lengths.now ≡ lengths.now)) }
{
    let n = n as usize;
    check_count(n)?;
    let columns = check_columns(tails, heads, lengths)?;
    check_rooms(n, tails.len(), lent)?;
    check_node(n, origin, Fault::Origin)?;
    check_wanted(n, wanted)?;
    check_arcs(n, columns)?;
    Ok(LinkTable {
        n,
        origin,
        columns,
        wanted,
    })
}
