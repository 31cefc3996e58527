// A link table in columns: for each arc its tail, its head and its length.
ghost use Rattle.std.specs.Prelude.{◌≡◌, true, ◌≤◌, ◌<◌, length, get_or};
ghost use Rattle.table.specs.Table.{most_arcs, table_of, is_table};

// An arc of a table.
#[derive(Clone, Copy)]
pub struct Arc {
    pub tail: u16,
    pub head: u16,
    pub length: u32,
}

// The columns, as C lends them: as many heads and lengths as tails, and no more than a table has.
#[derive(Clone, Copy)]
pub struct Columns<'a> {
    pub tails: &'a [u16],
    pub heads: &'a [u16],
    pub lengths: &'a [u32],
    ghost heads_are: { length tails.now ≡ length heads.now },
    ghost lengths_are: { length heads.now ≡ length lengths.now },
    ghost few: { length tails.now ≤ most_arcs },
}

impl Columns<'_> {
    // The arc at a position. Loops over a table's arcs are over the positions: a zip of the three columns gives pairs of pairs, of which an arc would have to
    // be made, and an Iterator of our own would be a type with laws, for what this says in a line.
    pub fn arc(self, i: usize) -> Arc
        requires { i < length self.tails.now }
        ensures tail { result.tail ≡ get_or self.entry.tails.now i 0 }
        ensures head { result.head ≡ get_or self.entry.heads.now i 0 }
        ensures length { result.length ≡ get_or self.entry.lengths.now i 0 }
    {
        Arc {
            tail: self.tails[i],
            head: self.heads[i],
            length: self.lengths[i],
        }
    }
}

// A table that is not refused, with its wanted nodes.
#[derive(Clone, Copy)]
pub struct LinkTable<'a> {
    pub n: usize,
    pub origin: u16,
    pub columns: Columns<'a>,
    pub wanted: &'a [u16],
    ghost good: { is_table (table_of n origin columns.tails.now columns.heads.now columns.lengths.now) wanted.now ≡ true },
}
