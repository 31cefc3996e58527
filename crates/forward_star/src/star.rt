// The columns of a table with the lists of its outgoing arcs.
ghost use Rattle.forward_star.specs.Lists.{star, SomeTable};

use table::links::Columns;

// The forward star of some table, with the column of tails: for each node its first outgoing arc, for each arc the next one that leaves the same node. Both
// are positions, since there is no heap for a list of each node's own, and NO_ARC where there is none: an Option of a position takes twice its room.
#[derive(Clone, Copy)]
pub struct ForwardStar<'a> {
    pub columns: Columns<'a>,
    pub first: &'a [u16],
    pub next: &'a [u16],
    ghost of_some_table: { ∥ SomeTable (star columns.heads.now columns.lengths.now first.now next.now) ∥₁ },
}
