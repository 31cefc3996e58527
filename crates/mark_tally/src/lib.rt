// How many arcs have each mark, for the last line of a sheet. specs/Tally.antt says what a tally is.
#![tactic(auto)]

ghost use Rattle.std.specs.Prelude.{◌≡◌};
ghost use Rattle.mark_tally.specs.Tally.{tally_of, Roomy, Counts};

// How many arcs have both ends unreached, are dropped, are kept into an unreached node, and are the tree arc of a reached node: marks 0 to 3.
#[derive(Clone, Copy, Default)]
pub struct Tally {
    pub unreached: u64,
    pub dropped: u64,
    pub kept: u64,
    pub tree: u64,
}

impl Tally {
    // One arc more, by its mark, a byte as C reads it. There are no other marks than these four; another byte is not counted.
    #[tactic(auto, unfolding(crate::specs::Tally::tally_of, auction::specs::HandOver::how_many))]
    fn count(&mut self, mark: u8)
        requires { Roomy self.old }
        ensures { Counts mark self.old self.new }
    {
        match mark {
            0 => self.unreached += 1,
            1 => self.dropped += 1,
            2 => self.kept += 1,
            3 => self.tree += 1,
            _ => {}
        }
    }
}

// The tally of all marks.
pub fn tally_marks(marks: &[u8]) -> Tally
    ensures { result ≡ tally_of marks.now }
{
    let mut tally = Tally::default();
    for mark in marks {
        tally.count(*mark);
    }
    tally
}
