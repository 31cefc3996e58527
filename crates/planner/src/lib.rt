// Planning: the refusals of a table, the run, and the four buffers that are handed over; the same to a collector, with tails and heads exchanged; and the
// run within a limit, which hands over an answer alone. What C lends comes one by one, up to `check_table` and `Buffers`.
#![tactic(auto)]

ghost use Rattle.std.specs.Prelude.{◌≡◌, cond, [], ◌∷◌, ℕ, ◌==◌, length};
ghost use Rattle.table.specs.Lent.{table_in};
ghost use Rattle.auction.specs.Plan.{routes_of};
ghost use Rattle.limit_answer.specs.Answer.{limit_of, AnswersLimit};
ghost use Rattle.hand_over.specs.Answered.{answered_in};
ghost use Rattle.hand_over.specs.ReadOff.{Fitting, SameBuffers};
ghost use Rattle.planner.specs.Ends.{RunEnds};
ghost use Rattle.planner.specs.Plan.{Plans, PlansToCollector};

use hand_over::{Buffers, Planned, hand_over};
use limit_answer::Within;
use refusals::{Rooms, check_table};
use solver::run::{NO_LIMIT, run};
use steps::state::{Node, RunEnd, RunState};
use table::links::LinkTable;

// Runs a table that is not refused within a limit, from the fresh state, and has an answer made of where the run ends and of the nodes
// that it leaves. What makes the answer is lent: of what a closure that is given away had written to, nothing would be known.
fn run_fresh<T, F: FnMut(RunEnd, &[Node]) -> T>(table: &LinkTable, limit: u64, answer: &mut F) -> T
    requires { (end : _) (nodes : _) → RunEnds table.now limit end nodes.now → F.pre answer.old end nodes }
    ensures { (end : _) × (nodes : _) × RunEnds table.now limit end nodes.now × F.step answer.old end nodes result answer.new }
{
    let n = table.n;
    let fresh = RunState::fresh(table.origin, n);
    let RunState {
        mut path,
        mut nodes,
        progress,
    } = fresh;
    let end = run(progress, limit, table, &mut path[..n], &mut nodes[..n]);
    answer(end, &nodes[..n])
}

// The plan of a table that is not refused.
fn plan_table(table: &LinkTable, buffers: &mut Buffers) -> Planned
    requires { Fitting table.now.n (length table.now.columns.heads.now) buffers.old }
    ensures same { SameBuffers buffers.old buffers.new }
    ensures answer { answered_in result buffers.new ≡ routes_of (table_in table.now) table.now.wanted.now }
{
    run_fresh(
        table,
        NO_LIMIT,
        &mut |end, nodes| { hand_over(end, table.wanted.len(), table.columns, nodes, buffers) },
    )
}

// Plans the routes of a link table from its origin to the wanted nodes: the answer, and a distance, a price and a tree arc for each
// node and a mark for each arc in the four buffers. The plan of crates/auction/specs/Plan.antt says what they hold, for every input.
pub fn plan_routes(
    n: u32,
    origin: u16,
    tails: &[u16],
    heads: &[u16],
    lengths: &[u32],
    wanted: &[u16],
    distances: &mut [u64],
    prices: &mut [u64],
    tree: &mut [u16],
    marks: &mut [u8],
) -> Planned
    ensures { Plans n origin tails heads lengths wanted distances prices tree marks result }
{
    let lent = Rooms {
        distances: distances.len(),
        prices: prices.len(),
        tree: tree.len(),
        marks: marks.len(),
    };
    match check_table(n, origin, tails, heads, lengths, wanted, lent) {
        Ok(table) => {
            let mut buffers = Buffers {
                distances,
                prices,
                tree,
                marks,
            };
            plan_table(&table, &mut buffers)
        }
        Err(refusal) => Planned::from(refusal),
    }
}

// Plans the routes of a link table from the senders to a collector: the routes from the collector to the senders in the table with each arc's tail and head
// exchanged, told by the table's own positions. The plan of crates/collector/specs/Plan.antt says what is answered and held, for every input.
pub fn plan_to_collector(
    n: u32,
    collector: u16,
    tails: &[u16],
    heads: &[u16],
    lengths: &[u32],
    senders: &[u16],
    distances: &mut [u64],
    prices: &mut [u64],
    tree: &mut [u16],
    marks: &mut [u8],
) -> Planned
    ensures { PlansToCollector n collector tails heads lengths senders distances prices tree marks result }
{
    plan_routes(
        n, collector, heads, tails, lengths, senders, distances, prices, tree, marks,
    )
}

// The run within a limit of a table that is not refused, for one wanted node.
fn limit_table(table: &LinkTable, limit: u64) -> Within
    ensures { (v : ℕ) → table.now.wanted.now ≡ v ∷ [] → result ≡ limit_of (table_in table.now) v limit }
{
    run_fresh(
        table,
        limit,
        &mut |end, _| {
            Within {
                number: 0,
                place: 0,
                within: u32::from(end.missing == table.wanted.len()),
                iterations: end.progress.iterations(),
            }
        },
    )
}

// Whether a node is within a limit: whether some walk from the origin to it is no longer. The run ends as soon as the node is reached or
// the origin's price is above the limit. The answer of crates/limit_answer/specs/Answer.antt says what it holds, for every input.
pub fn within_limit(
    n: u32,
    origin: u16,
    node: u16,
    limit: u64,
    tails: &[u16],
    heads: &[u16],
    lengths: &[u32],
) -> Within
    ensures { AnswersLimit n origin node limit tails heads lengths result }
{
    // no buffers are lent, so that their lengths fit
    let fitting = Rooms::needed(n as usize, tails.len());
    match check_table(n, origin, tails, heads, lengths, &[node], fitting) {
        Ok(table) => limit_table(&table, limit),
        Err(refusal) => Within::from(refusal),
    }
}
