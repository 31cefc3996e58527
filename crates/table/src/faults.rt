// Why a call is refused.
ghost use Rattle.std.specs.Prelude.{◌≡◌, ◌<◌, ◌^◌};
ghost use Rattle.table.specs.Refusals.{refusal};
ghost use Rattle.table.specs.Told.{number, tells};

// What is wrong. The number that a caller is told is the fault's value here.
#[derive(Clone, Copy)]
pub enum Fault {
    // The node count is 0 or above 1,024.
    NodeCount = 1,
    // Columns of unequal length, or more than 6,000 arcs.
    Columns = 2,
    // An output buffer is not as long as the answer; a reader's buffer is too short.
    Buffers = 3,
    // The origin is not below n.
    Origin = 4,
    // More than 1,024 wanted nodes, or one that is not below n.
    Wanted = 5,
    // An arc's tail or head is not below n.
    ArcEnd = 6,
    // An arc of length 0.
    ArcLength = 7,
    // A wanted node has no walk. A plan is made all the same.
    NoRoute = 8,
    // The file is cut inside a field, or empty.
    Cut = 9,
    // A bit map has a forbidden bit, or lacks a needed field.
    BitMap = 10,
    // An implied head is above 65535.
    ImpliedHead = 11,
    // A field says what its absence would say.
    Needless = 12,
    // The output is too short.
    Room = 13,
    // A tree column does not lead back to the origin.
    NoPath = 14,
    // A fresh list of nodes is empty, too long or no walk.
    NoWalk = 15,
    // Of a test load: the chance is above 65,536, or the largest length is no length.
    LoadRange = 16,
    // A test load has more than 6,000 arcs.
    LoadSize = 17,
}

impl Fault {
    // By a name and not by `u32::from`, which would not say what the number is for.
    pub fn number(self) -> u32
        ensures { result ≡ number self }
    {
        self as u32
    }

    // The refusal at a place, which is 0 where the rules name none.
    pub fn at(self, place: usize) -> Refusal
        requires { place < 2 ^ 32 }
        ensures { tells result ≡ refusal (number self) place }
    {
        Refusal {
            fault: self,
            place: place as u32,
        }
    }
}

// A fault and where it is.
#[derive(Clone, Copy)]
pub struct Refusal {
    pub fault: Fault,
    pub place: u32,
}
