// Keeping the standing path: the totals of two lists of nodes, and which of the lists is given. crate keeping (specs/Keeping.antt) says which, for every
// input.
#![tactic(auto)]

ghost use Rattle.std.specs.Prelude.{◌≡◌, ◌<◌};
ghost use Rattle.std.proofs.Math.Option.{some};
ghost use Rattle.table.specs.Table.{down};
ghost use Rattle.table.specs.Lent.{table_in};
ghost use Rattle.table.specs.Refusals.{refusal};
ghost use Rattle.table.specs.Told.{told};
ghost use Rattle.keeping.specs.Keeping.{lesser, lent_total, stays, keep, keeps, Part};
ghost use Rattle.keeper.specs.Totals.{held, met, step_from, answer, chosen};

use forward_star::linked::{LinkedTable, with_star};
use keeping::Kept;
use refusals::{Rooms, check_table};
use table::faults::{Fault, Refusal};
use table::links::LinkTable;
use table::{DOWN, MOST_NODES, NO_ARC};

// The lesser of the length met so far, DOWN where there is none yet, and an arc's. No arc that is listed has the length DOWN: with an Option in its place a step
// along thousands of arcs took longer by a quarter (DECISIONS N12).
#[tactic(auto, using(crate::proofs::Stepping::lesser_met))]
fn lesser(shortest: u32, length: u32) -> u32
    requires { length < down }
    ensures { held (met result) ≡ lesser (held (met shortest)) (some length) }
{
    shortest.min(length)
}

// The length of the shortest arc from one node to another, where there is one. Only the arcs out of the first node are looked at, along its list as in a scan of
// crate steps, and what is no node has none.
fn step_length(linked: &LinkedTable, from: u16, to: u16) -> Option<u32>
    ensures { held result ≡ step_from (table_in linked.now.table) from to }
{
    let star = &linked.star;
    let columns = star.columns;
    let mut shortest = DOWN;
    let mut p = *star.first.get(usize::from(from))?;
    while p != NO_ARC {
        let i = usize::from(p);
        if columns.heads[i] == to {
            shortest = lesser(shortest, columns.lengths[i]);
        }
        p = star.next[i];
    }
    if shortest == DOWN {
        return None;
    }
    Some(shortest)
}

// The total of a list, where it is a walk of 1 to MOST_NODES nodes.
fn total(linked: &LinkedTable, list: &[u16]) -> Option<u64>
    ensures { held result ≡ lent_total (table_in linked.now.table) list.now }
{
    let last = *list.last()?;
    if MOST_NODES < list.len() {
        return None;
    }
    let mut total = 0;
    for step in list.windows(2) {
        total += u64::from(step_length(linked, step[0], step[1])?);
    }
    if usize::from(last) < linked.star.first.len() {
        Some(total)
    } else {
        None
    }
}

// Whether the standing list is kept beside a fresh list of this total. A struct of the two lists would be made in `decide` and in `keep_path`, and here be
// taken apart again; up to `keeps_standing` what C lends comes one by one.
fn stays(linked: &LinkedTable, standing: &[u16], fresh: &[u16], most: u64) -> bool
    requires { held (Some most) ≡ lent_total (table_in linked.now.table) fresh.now }
    ensures { result ≡ stays (table_in linked.now.table) standing.now fresh.now }
{
    if standing.first() != fresh.first() || standing.last() != fresh.last() {
        return false;
    }
    total(linked, standing).is_some_and(|total| total <= most)
}

// Whether the standing list is kept, or the fresh one's refusal.
fn choose(linked: &LinkedTable, standing: &[u16], fresh: &[u16]) -> Result<bool, Refusal>
    ensures { answer result standing.now fresh.now ≡ chosen (table_in linked.now.table) standing.now fresh.now }
{
    let most = total(linked, fresh).ok_or(Fault::NoWalk.at(0))?;
    Ok(stays(linked, standing, fresh, most))
}

// The same by a table: its arcs are linked once, and each step looks at the arcs out of its first node.
fn compare(table: LinkTable, standing: &[u16], fresh: &[u16]) -> Result<bool, Refusal>
    ensures { answer result standing.now fresh.now ≡ chosen (table_in table.entry) standing.now fresh.now }
{
    with_star(&table, &mut |linked| choose(linked, standing, fresh))
}

// Whether the standing list is kept, or the refusal: 1, 2, 6 and 7, then 15. Node 0 stands for an origin, nothing is wanted, and the buffers fit.
fn keeps_standing(
    n: u32,
    tails: &[u16],
    heads: &[u16],
    lengths: &[u32],
    standing: &[u16],
    fresh: &[u16],
) -> Result<bool, Refusal>
    ensures { answer result standing.now fresh.now ≡ keep n tails.now heads.now lengths.now standing.now fresh.now }
{
    let lent = Rooms::needed(n as usize, tails.len());
    let table = check_table(n, 0, tails, heads, lengths, &[], lent)?;
    compare(table, standing, fresh)
}

// Decides which of two lists of nodes is kept: the standing one where it is still a walk between the fresh one's first and last node and its total is no
// greater, otherwise the fresh one. The answer says how many nodes of which list are given; each arm is a whole answer.
pub fn decide(
    n: u32,
    tails: &[u16],
    heads: &[u16],
    lengths: &[u32],
    standing: &[u16],
    fresh: &[u16],
) -> Kept
    ensures { result ≡ keeps n tails heads lengths standing fresh }
{
    match keeps_standing(n, tails, heads, lengths, standing, fresh) {
        Ok(true) => Kept {
            number: 0,
            place: 0,
            standing: 1,
            count: standing.len() as u32,
        },
        Ok(false) => Kept {
            number: 0,
            place: 0,
            standing: 0,
            count: fresh.len() as u32,
        },
        Err(refusal) => Kept::from(refusal),
    }
}

// Gives the standing list or the fresh one, as `decide` says: a part of one of the two lists that are lent, and never a copy. A refusal gives an empty part
// of the fresh list, so that the list stands beside the Result and not in it.
pub fn keep_path<'a>(
    n: u32,
    tails: &[u16],
    heads: &[u16],
    lengths: &[u32],
    standing: &'a [u16],
    fresh: &'a [u16],
) -> (&'a [u16], Result<(), Refusal>)
    ensures part { Part (keeps n tails heads lengths standing fresh) standing.entry fresh.entry result.0 }
    ensures told { told result.1 ≡ (let k = keeps n tails heads lengths standing fresh in refusal k.number k.place) }
{
    match keeps_standing(n, tails, heads, lengths, standing, fresh) {
        Ok(true) => (standing, Ok(())),
        Ok(false) => (fresh, Ok(())),
        Err(refusal) => (&fresh[..0], Err(refusal)),
    }
}
