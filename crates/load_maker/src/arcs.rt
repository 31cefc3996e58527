// The arcs of a load, one after the other.
ghost use Rattle.std.specs.Prelude.{◌≡◌, ◌<◌, ◌≤◌, ◌*◌, ◌%◌, ◌^◌};
ghost use Rattle.table.specs.Table.{most_nodes};
ghost use Rattle.test_load.specs.Load.{draw, load};

use crate::pairs::Pairs;
use table::links::Arc;

// What a load is made of.
#[derive(Clone, Copy)]
pub struct Recipe {
    pub n: u16,
    pub seed: u32,
    pub chance: u32,
    pub largest: u32,
    ghost few_nodes: { n ≤ most_nodes },
    ghost some_length: { 0 < largest },
}

impl Recipe {
    ghost use Rattle.load_maker.specs.Left.{arcs_left};

    // All its arcs.
    pub fn arcs(self) -> Arcs
        ensures { arcs_left result ≡ load self.n self.seed self.chance self.largest }
    {
        Arcs {
            pairs: Pairs::new(self.n),
            state: self.seed,
            chance: self.chance,
            largest: self.largest,
        }
    }
}

// A product of 32 bits, wrapping.
fn wrapping_mul(a: u32, b: u32) -> u32
    ensures { result ≡ (a * b) % 2 ^ 32 }
{
    (u64::from(a) * u64::from(b) % 4294967296) as u32
}

// The next state, which is also the number drawn.
fn draw(state: u32) -> u32
    ensures { result ≡ draw state }
{
    wrapping_mul(state, 1664525).wrapping_add(1013904223)
}

// The arcs of the pairs that are left, from a state on.
#[derive(Drop)]
pub struct Arcs {
    pairs: Pairs,
    state: u32,
    chance: u32,
    largest: u32,
    ghost some_length: { 0 < largest },
}

impl Iterator for Arcs {
    ghost use Rattle.std.specs.Iterator.{YieldsFirstBy, item_count};
    ghost use Rattle.table.specs.Lent.{arc_of};
    ghost use Rattle.load_maker.specs.Left.{arcs_left};

    type Item = Arc;

    ghost next_gives = { YieldsFirstBy arc_of arcs_left };

    ghost remaining = { item_count arcs_left };

    fn next(&mut self) -> Option<Arc> {
        loop {
            let pair = self.pairs.next()?;
            self.state = draw(self.state);
            if self.state / 65536 < self.chance {
                self.state = draw(self.state);
                return Some(Arc {
                    tail: pair.tail,
                    head: pair.head,
                    length: 1 + self.state % self.largest,
                });
            }
        }
    }
}
