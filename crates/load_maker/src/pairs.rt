// The pairs that a load draws for.
ghost use Rattle.std.specs.Prelude.{◌≡◌};
ghost use Rattle.std.specs.Iterator.{YieldsFirstBy, item_count};
ghost use Rattle.test_load.specs.Load.{pairs};
ghost use Rattle.load_maker.specs.Left.{pair_of, pairs_left};

use std::ops::Range;

// A tail and a head that differ.
#[derive(Clone, Copy)]
pub struct Pair {
    pub tail: u16,
    pub head: u16,
}

// The pairs of nodes below n that are left, by tail and then by head: those of a tail with these heads, and then those of these tails with all heads.
#[derive(Drop)]
pub struct Pairs {
    n: u16,
    tail: u16,
    heads: Range<u16>,
    tails: Range<u16>,
}

impl Pairs {
    // All pairs of n nodes.
    pub fn new(n: u16) -> Pairs
        ensures { pairs_left result ≡ pairs n }
    {
        Pairs {
            n,
            tail: 0,
            heads: 0..0,
            tails: 0..n,
        }
    }
}

impl Iterator for Pairs {
    type Item = Pair;

    ghost next_gives = { YieldsFirstBy pair_of pairs_left };

    ghost remaining = { item_count pairs_left };

    fn next(&mut self) -> Option<Pair> {
        loop {
            match self.heads.next() {
                Some(head) if head == self.tail => {}
                Some(head) => {
                    return Some(Pair {
                        tail: self.tail,
                        head,
                    });
                }
                None => {
                    self.tail = self.tails.next()?;
                    self.heads = 0..self.n;
                }
            }
        }
    }
}
