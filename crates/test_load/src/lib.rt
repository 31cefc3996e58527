// A test load that two labs can make of the same numbers: what it is as definitions, with the promises about it. load_maker has the code.
#![tactic(auto)]

ghost use Rattle.std.specs.Prelude.{◌≡◌};
ghost use Rattle.table.specs.Told.{tells};
ghost use Rattle.test_load.specs.Making.{made};

use table::faults::Refusal;

// What making a load answers: the refusal's number and place, both 0 where there is none, and how many arcs were made, 0 in a refusal. C reads it, so it is
// numbers and no Result.
#[repr(C)]
#[derive(Clone, Copy)]
pub struct Made {
    pub number: u32,
    pub place: u32,
    pub arcs: u32,
}

// The answer where nothing is made.
impl From<Refusal> for Made {
    ghost from_gives = { λ refusal answer. answer ≡ made (tells refusal) 0 };

    #[tactic(auto, unfolding(crate::specs::Making::made, table::specs::Refusals::refusal))]
    fn from(refusal: Refusal) -> Made {
        Made {
            number: refusal.fault.number(),
            place: refusal.place,
            arcs: 0,
        }
    }
}
