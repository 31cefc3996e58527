// Listing a path: what is listed as definitions, from the origin to a node and from a node to a collector, with the promises about it. paths has the code.
#![tactic(auto)]

ghost use Rattle.std.specs.Prelude.{◌≡◌};
ghost use Rattle.table.specs.Told.{number};

use table::faults::Refusal;

// The refusal's number, 0 where there is none; its place, always 0; and how many nodes are listed, 0 on a refusal. C reads it, so it is
// numbers and no Result.
#[repr(C)]
#[derive(Clone, Copy)]
pub struct Listed {
    pub number: u32,
    pub place: u32,
    pub count: u32,
}

// A refusal lists nothing.
impl From<Refusal> for Listed {
    ghost from_gives = { λ refusal listed.
        (listed.number ≡ number refusal.fault) × (listed.place ≡ refusal.place) × (listed.count ≡ 0) };

    fn from(refusal: Refusal) -> Listed {
        Listed {
            number: refusal.fault.number(),
            place: refusal.place,
            count: 0,
        }
    }
}

// So many nodes, and no refusal.
impl From<u32> for Listed {
    ghost from_gives = { λ count listed. (listed.number ≡ 0) × (listed.place ≡ 0) × (listed.count ≡ count) };

    fn from(count: u32) -> Listed {
        Listed {
            number: 0,
            place: 0,
            count,
        }
    }
}
