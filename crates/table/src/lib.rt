// The words that every crate above shares: limits and numbers with a meaning, what a refusal is, and the tests that several entries make. specs/Table.antt
// says what a table and a walk are, specs/Refusals.antt when a table is refused.
#![tactic(auto)]

pub mod faults;
pub mod links;

ghost use Rattle.std.specs.Prelude.{◌≡◌, cond, ltb, leb, ◌<◌, length, IfOk};
ghost use Rattle.table.specs.Table.{most_wanted};
ghost use Rattle.table.specs.Refusals.{no_refusal, refusal, count_bad, columns_bad, columns_short};
ghost use Rattle.table.specs.Told.{number, told};

use faults::{Fault, Refusal};
use links::Columns;

// The most nodes, arcs and wanted nodes a table has.
pub const MOST_NODES: usize = 1024;

pub const MOST_ARCS: usize = 6000;

pub const MOST_WANTED: usize = 1024;

// What stands in a column for something that is not there. C reads and fills the columns, so it is a number and no Option.

// In a length column: the link is down, so that the arc is absent. The greatest length in use is one less.
pub const DOWN: u32 = 4294967295;

// In a tree column: no arc.
pub const NO_ARC: u16 = 65535;

// In a distance column: no distance.
pub const NO_DISTANCE: u64 = 18446744073709551615;

// 1: n is 0, or above the most nodes.
#[tactic(auto, unfolding(crate::specs::Refusals::count_bad))]
pub fn bad_count(n: usize) -> bool
    ensures { result ≡ count_bad n }
{
    n == 0 || MOST_NODES < n
}

// 2: columns of these lengths are unequal, or have too many arcs.
#[tactic(auto, unfolding(crate::specs::Refusals::columns_bad))]
pub fn bad_columns(tails: usize, heads: usize, lengths: usize) -> bool
    ensures { result ≡ columns_bad tails heads lengths }
{
    tails != heads || heads != lengths || MOST_ARCS < tails
}

// 3: a column that is lent to be filled is shorter than a table may need.
#[tactic(auto, unfolding(crate::specs::Refusals::columns_short))]
pub fn short_columns(tails: usize, heads: usize, lengths: usize) -> bool
    ensures { result ≡ columns_short tails heads lengths }
{
    tails < MOST_ARCS || heads < MOST_ARCS || lengths < MOST_ARCS
}

// 3, of three columns that are lent to be filled.
pub fn check_room(tails: usize, heads: usize, lengths: usize) -> Result<(), Refusal>
    ensures { told result ≡ cond (columns_short tails heads lengths) (refusal 3 0) no_refusal }
{
    if short_columns(tails, heads, lengths) {
        return Err(Fault::Buffers.at(0));
    }
    Ok(())
}

// 1: the node count.
pub fn check_count(n: usize) -> Result<(), Refusal>
    ensures { told result ≡ cond (count_bad n) (refusal 1 0) no_refusal }
{
    if bad_count(n) {
        return Err(Fault::NodeCount.at(0));
    }
    Ok(())
}

// 2: the columns, as ones of equal length.
pub fn check_columns<'a>(
    tails: &'a [u16],
    heads: &'a [u16],
    lengths: &'a [u32],
) -> Result<Columns<'a>, Refusal>
    ensures told { told result ≡ cond (columns_bad (length tails.now) (length heads.now) (length lengths.now)) (refusal 2 0) no_refusal }
    ensures same { IfOk result (λ c. (c.tails.now ≡ tails.now) × (c.heads.now ≡ heads.now) × (c.lengths.now ≡ lengths.now)) }
{
    if bad_columns(tails.len(), heads.len(), lengths.len()) {
        return Err(Fault::Columns.at(0));
    }
    Ok(Columns {
        tails,
        heads,
        lengths,
    })
}

// 4, and 5 of a single wanted node: the node is below n. The fault says which of the two it is; its place is 0.
pub fn check_node(n: usize, node: u16, fault: Fault) -> Result<(), Refusal>
    ensures { told result ≡ cond (leb n node) (refusal (number fault) 0) no_refusal }
{
    if n <= usize::from(node) {
        return Err(fault.at(0));
    }
    Ok(())
}

// 5, as far as the number of wanted nodes goes: the place of too many is that of the first one too many.
pub fn check_wanted_count(count: usize) -> Result<(), Refusal>
    ensures { told result ≡ cond (ltb most_wanted count) (refusal 5 most_wanted) no_refusal }
{
    if MOST_WANTED < count {
        return Err(Fault::Wanted.at(MOST_WANTED));
    }
    Ok(())
}
