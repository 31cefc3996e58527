// Keeping the standing path: what is kept as definitions, with the promises about it. keeper has the code.
#![tactic(auto)]

ghost use Rattle.std.specs.Prelude.{◌≡◌};
ghost use Rattle.table.specs.Told.{number};

use table::faults::Refusal;

// The refusal's number and place, number 0 where there is none; 1 where the standing list is kept, else 0; and how many nodes of the standing list or of
// the fresh one are given, 0 on a refusal. C reads it, so it is numbers and no Result.
#[repr(C)]
#[derive(Clone, Copy)]
pub struct Kept {
    pub number: u32,
    pub place: u32,
    pub standing: u32,
    pub count: u32,
}

// A refusal gives an empty part of the fresh list.
impl From<Refusal> for Kept {
    ghost from_gives = { λ refusal kept.
        (kept.number ≡ number refusal.fault) × (kept.place ≡ refusal.place) × (kept.standing ≡ 0) × (kept.count ≡ 0) };

    fn from(refusal: Refusal) -> Kept {
        Kept {
            number: refusal.fault.number(),
            place: refusal.place,
            standing: 0,
            count: 0,
        }
    }
}
