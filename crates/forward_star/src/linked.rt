// A table with its forward star.
ghost use Rattle.std.specs.Prelude.{◌≡◌};
ghost use Rattle.std.specs.Fn.{TakesAt, CalledAt};
ghost use Rattle.table.specs.Lent.{table_in};
ghost use Rattle.forward_star.specs.Lent.{IsStarOf};

use super::link_arcs;
use super::star::ForwardStar;
use table::links::LinkTable;
use table::{MOST_ARCS, MOST_NODES, NO_ARC};

// A table that is not refused, with its forward star over the same columns.
#[derive(Clone, Copy)]
pub struct LinkedTable<'a> {
    pub table: LinkTable<'a>,
    pub star: ForwardStar<'a>,
    ghost same_columns: { star.columns ≡ table.columns },
    ghost listed: { IsStarOf (table_in table) star },
}

// Links the arcs of a table, and hands it on with its forward star. Without a heap the lists have room for every table. The call is through a
// `&mut`, so that what it changes is known after it.
pub fn with_star<T, F: FnMut(&LinkedTable) -> T>(table: &LinkTable, then: &mut F) -> T
    requires { (l : LinkedTable) → l.table ≡ table.now → TakesAt F.FnMut then.old l }
    ensures { (l : LinkedTable) × (l.table ≡ table.now) × CalledAt F.FnMut then.old l result then.new }
{
    let n = table.n;
    let columns = table.columns;
    let m = columns.tails.len();
    let mut first = [NO_ARC; MOST_NODES];
    let mut next = [NO_ARC; MOST_ARCS];
    link_arcs(
        columns.tails,
        columns.lengths,
        &mut first[..n],
        &mut next[..m],
    );
    let star = ForwardStar {
        columns,
        first: &first[..n],
        next: &next[..m],
    };
    let linked = LinkedTable {
        table: *table,
        star,
    };
    then(&linked)
}
