// From the bytes of a link file to the plan of its table.
#![tactic(auto)]

ghost use Rattle.std.specs.Prelude.{◌≡◌};
ghost use Rattle.link_file.specs.Promises.{CountsFit};
ghost use Rattle.input.specs.Input.{ColumnsRoomy, BuffersRoomy, PlansRead};

use hand_over::Planned;
use link_file::TableRead;
use table::MOST_ARCS;
use table::faults::Fault;

// The longest input; a longer one cannot be a link file, and counts as one with too many arcs.
pub const MOST_INPUT: usize = 65536;

// What was read, and the plan of it.
#[derive(Clone, Copy)]
pub struct PlannedInput {
    pub read: TableRead,
    pub answer: Planned,
}

// Plans what was read: of each column the start that reading filled, with as much of each buffer as the table needs. The refusal of a file is the answer: its
// number is not 0, since `read` is what `read_link_file` answers, to C and here. The eight come as slices, the columns by `&mut` too and left as they are: of
// a field's slice that was lent by `&` no proof knows afterwards what it holds.
fn plan_read(
    read: TableRead,
    tails: &mut [u16],
    heads: &mut [u16],
    lengths: &mut [u32],
    wanted: &mut [u16],
    distances: &mut [u64],
    prices: &mut [u64],
    tree: &mut [u16],
    marks: &mut [u8],
) -> Planned
    requires counts_fit { CountsFit read }
    requires columns_roomy { ColumnsRoomy tails.old heads.old lengths.old wanted.old }
    requires buffers_roomy { BuffersRoomy distances.old prices.old tree.old marks.old }
    ensures plans { PlansRead read tails heads lengths wanted distances prices tree marks result }
    ensures columns_stay { (tails.new ≡ tails.old) × (heads.new ≡ heads.old) × (lengths.new ≡ lengths.old) × (wanted.new ≡ wanted.old) }
{
    if read.number != 0 {
        return Planned::nothing(read.number, read.place);
    }
    let n = read.n as usize;
    let m = read.arcs as usize;
    let w = read.wanted as usize;
    planner::plan_routes(
        read.n,
        read.origin,
        &tails[..m],
        &heads[..m],
        &lengths[..m],
        &wanted[..w],
        &mut distances[..n],
        &mut prices[..n],
        &mut tree[..n],
        &mut marks[..m],
    )
}

// The columns of a table and the buffers of a plan, lent with room for every table. The four buffers are no `Buffers`: with room for every table they are
// longer than an answer, and `plan_routes` takes of each the part that fits.
#[derive(Drop)]
pub struct Workspace<'a> {
    pub tails: &'a mut [u16],
    pub heads: &'a mut [u16],
    pub lengths: &'a mut [u32],
    pub wanted: &'a mut [u16],
    pub distances: &'a mut [u64],
    pub prices: &'a mut [u64],
    pub tree: &'a mut [u16],
    pub marks: &'a mut [u8],
    ghost columns_roomy: { ColumnsRoomy tails.now heads.now lengths.now wanted.now },
    ghost buffers_roomy: { BuffersRoomy distances.now prices.now tree.now marks.now },
}

impl Workspace<'_> {
    ghost use Rattle.input.specs.Lent.{ReadsInput, SameWorkspace, Ready};

    // Reads the input as a link file. One that is too long to be a link file is refused as one with too many arcs, and not read.
    fn read_input(&mut self, input: &[u8]) -> TableRead
        ensures reads { ReadsInput input.now self.old self.new result }
        ensures fits { CountsFit result }
        ensures same { SameWorkspace self.old self.new }
    {
        if MOST_INPUT < input.len() {
            return TableRead::from(Fault::Columns.at(MOST_ARCS));
        }
        link_file::read_link_file(input, self.tails, self.heads, self.lengths, self.wanted)
    }

    // Reads the input and plans its table. What is left in the columns and buffers is what the sheet is printed from.
    pub fn plan_input(&mut self, input: &[u8]) -> PlannedInput
        ensures ready { Ready input.now result self.new }
        ensures same { SameWorkspace self.old self.new }
    {
        let read = self.read_input(input);
        PlannedInput {
            read,
            answer: plan_read(
                read,
                self.tails,
                self.heads,
                self.lengths,
                self.wanted,
                self.distances,
                self.prices,
                self.tree,
                self.marks,
            ),
        }
    }
}
