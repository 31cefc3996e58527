// The library for firmware: the nine entry points under C names, nothing else. include/kestrelore.h declares them; each has the contract of the function
// that it hands on to. A column or buffer is a parameter of its own, with its length, since C lends them so.
#![tactic(auto)]

ghost use Rattle.std.specs.Prelude.{◌≡◌};
ghost use Rattle.planner.specs.Plan.{Plans, PlansToCollector};
ghost use Rattle.limit_answer.specs.Answer.{AnswersLimit};
ghost use Rattle.listing.specs.Listing.{ListsPath};
ghost use Rattle.listing.specs.Collecting.{ListsToCollector};
ghost use Rattle.keeping.specs.Keeping.{keeps};
ghost use Rattle.link_file.specs.Entries.{ReadsFile, WritesFile};
ghost use Rattle.test_load.specs.Making.{MakesLoad};

use hand_over::Planned;
use keeping::Kept;
use limit_answer::Within;
use link_file::{TableRead, Written};
use listing::Listed;
use test_load::Made;

// Plans the routes of a link table.
#[unsafe(no_mangle)]
pub extern "C" fn kestrelore_plan_routes(
    n: u32,
    origin: u16,
    tails: &[u16],
    heads: &[u16],
    lengths: &[u32],
    wanted: &[u16],
    distances: &mut [u64],
    prices: &mut [u64],
    tree: &mut [u16],
    marks: &mut [u8],
) -> Planned
    ensures { Plans n origin tails heads lengths wanted distances prices tree marks result }
{
    planner::plan_routes(
        n, origin, tails, heads, lengths, wanted, distances, prices, tree, marks,
    )
}

// Plans the routes of a link table from the senders to a collector.
#[unsafe(no_mangle)]
pub extern "C" fn kestrelore_plan_to_collector(
    n: u32,
    collector: u16,
    tails: &[u16],
    heads: &[u16],
    lengths: &[u32],
    senders: &[u16],
    distances: &mut [u64],
    prices: &mut [u64],
    tree: &mut [u16],
    marks: &mut [u8],
) -> Planned
    ensures { PlansToCollector n collector tails heads lengths senders distances prices tree marks result }
{
    planner::plan_to_collector(
        n, collector, tails, heads, lengths, senders, distances, prices, tree, marks,
    )
}

// Whether a node is within a limit.
#[unsafe(no_mangle)]
pub extern "C" fn kestrelore_within_limit(
    n: u32,
    origin: u16,
    node: u16,
    limit: u64,
    tails: &[u16],
    heads: &[u16],
    lengths: &[u32],
) -> Within
    ensures { AnswersLimit n origin node limit tails heads lengths result }
{
    planner::within_limit(n, origin, node, limit, tails, heads, lengths)
}

// Lists the nodes of a path.
#[unsafe(no_mangle)]
pub extern "C" fn kestrelore_list_path(
    origin: u16,
    node: u16,
    tails: &[u16],
    heads: &[u16],
    tree: &[u16],
    output: &mut [u16],
) -> Listed
    ensures { ListsPath origin node tails heads tree output result }
{
    paths::list_path(origin, node, tails, heads, tree, output)
}

// Lists the nodes of a path to a collector.
#[unsafe(no_mangle)]
pub extern "C" fn kestrelore_list_to_collector(
    collector: u16,
    node: u16,
    tails: &[u16],
    heads: &[u16],
    tree: &[u16],
    output: &mut [u16],
) -> Listed
    ensures { ListsToCollector collector node tails heads tree output result }
{
    paths::list_to_collector(collector, node, tails, heads, tree, output)
}

// Keeps the standing path or takes the fresh one.
#[unsafe(no_mangle)]
pub extern "C" fn kestrelore_keep_path(
    n: u32,
    tails: &[u16],
    heads: &[u16],
    lengths: &[u32],
    standing: &[u16],
    fresh: &[u16],
) -> Kept
    ensures { result ≡ keeps n tails heads lengths standing fresh }
{
    keeper::decide(n, tails, heads, lengths, standing, fresh)
}

// Reads a link file.
#[unsafe(no_mangle)]
pub extern "C" fn kestrelore_read_link_file(
    file: &[u8],
    tails: &mut [u16],
    heads: &mut [u16],
    lengths: &mut [u32],
    wanted: &mut [u16],
) -> TableRead
    ensures { ReadsFile file tails heads lengths wanted result }
{
    link_file::read_link_file(file, tails, heads, lengths, wanted)
}

// Writes a link file.
#[unsafe(no_mangle)]
pub extern "C" fn kestrelore_write_link_file(
    n: u32,
    origin: u16,
    tails: &[u16],
    heads: &[u16],
    lengths: &[u32],
    wanted: &[u16],
    output: &mut [u8],
) -> Written
    ensures { WritesFile n origin tails heads lengths wanted output result }
{
    link_file::write_link_file(n, origin, tails, heads, lengths, wanted, output)
}

// Makes a test load.
#[unsafe(no_mangle)]
pub extern "C" fn kestrelore_make_load(
    n: u32,
    seed: u32,
    chance: u32,
    largest: u32,
    tails: &mut [u16],
    heads: &mut [u16],
    lengths: &mut [u32],
) -> Made
    ensures { MakesLoad n seed chance largest tails heads lengths result }
{
    load_maker::make_load(n, seed, chance, largest, tails, heads, lengths)
}
