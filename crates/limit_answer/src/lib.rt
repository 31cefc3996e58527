// Whether a node is within a limit: what is answered as definitions, with the promises about it. planner has the code.
#![tactic(auto)]

ghost use Rattle.std.specs.Prelude.{◌≡◌};
ghost use Rattle.table.specs.Told.{number};
ghost use Rattle.limit_answer.specs.Answer.{within};

use table::faults::Refusal;

// Number and place of a refusal, number 0 where there is none; 1 where the node is within the limit, else 0; the iterations made. C reads
// it, so it is numbers and no Result.
#[repr(C)]
#[derive(Clone, Copy)]
pub struct Within {
    pub number: u32,
    pub place: u32,
    pub within: u32,
    pub iterations: u64,
}

// A refusal says no, after no iteration.
impl From<Refusal> for Within {
    #[tactic(auto, unfolding(crate::specs::Answer::within))]
    fn from(refusal: Refusal) -> Within
        ensures { result ≡ within (number refusal.fault) refusal.place 0 0 }
    {
        Within {
            number: refusal.fault.number(),
            place: refusal.place,
            within: 0,
            iterations: 0,
        }
    }
}
