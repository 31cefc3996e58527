// Listing a path: the nodes from the origin to a node, read off a tree column, or those from a node to a collector.
// crates/listing/specs/Listing.antt says what a listing gives, Collecting.antt beside it what one to a collector does.
//
// The path is followed twice, from the node back: once to count its nodes, which finds refusal 14 before anything is written, and once to write them.
// From the origin they are then turned round; to a collector, for which tails and heads are exchanged, they already stand as they are wanted. Up to
// `check_tree` the columns are parameters of their own, as C lends them.
#![tactic(auto)]

mod tree;

ghost use Rattle.std.specs.Prelude.{◌≡◌, ◌<◌, length, IfOk};
ghost use Rattle.table.specs.Refusals.{refusal};
ghost use Rattle.table.specs.Told.{told};
ghost use Rattle.listing.specs.Listing.{tree_in, early_number, listing, ListsPath};
ghost use Rattle.listing.specs.Collecting.{ListsToCollector};
ghost use Rattle.paths.specs.Trees.{tree_of};
ghost use Rattle.paths.specs.Back.{ListsBack};

use listing::Listed;
use table::faults::{Fault, Refusal};
use table::{bad_columns, check_count, check_node};
use tree::Tree;

// 1, 2, 4 and 5: the tree, of which the origin and the node are nodes.
fn check_tree<'a>(
    origin: u16,
    node: u16,
    tails: &'a [u16],
    heads: &'a [u16],
    column: &'a [u16],
) -> Result<Tree<'a>, Refusal>
    ensures told { told result ≡ refusal (early_number (length column.now) (length tails.now) (length heads.now) origin node) 0 }
    ensures same { IfOk result (λ t. (t.origin ≡ origin) × (tree_of t ≡ tree_in tails.now heads.now column.now)) }
    ensures node { IfOk result (λ t. node < length t.column.now) }
{
    let n = column.len();
    check_count(n)?;
    if bad_columns(tails.len(), heads.len(), heads.len()) {
        return Err(Fault::Columns.at(0));
    }
    check_node(n, origin, Fault::Origin)?;
    check_node(n, node, Fault::Wanted)?;
    Ok(Tree {
        origin,
        tails,
        heads,
        column,
    })
}

// Lists the nodes from a node back to the origin: how many there are. The refusals are tested in the order 1, 2, 4, 5, 14, 13.
fn list_back(
    origin: u16,
    node: u16,
    tails: &[u16],
    heads: &[u16],
    column: &[u16],
    output: &mut [u16],
) -> Result<u32, Refusal>
    ensures { ListsBack (listing origin node (tree_in tails.now heads.now column.now) (length output.old)) result output.old output.new }
{
    let tree = check_tree(origin, node, tails, heads, column)?;
    let count = tree.count_nodes(node).ok_or(Fault::NoPath.at(0))?;
    if output.len() < count {
        return Err(Fault::Room.at(0));
    }
    tree.write_back(node, &mut output[..count]);
    Ok(count as u32)
}

// The nodes from the origin to a node, at the start of the output.
pub fn list_path(
    origin: u16,
    node: u16,
    tails: &[u16],
    heads: &[u16],
    tree: &[u16],
    output: &mut [u16],
) -> Listed
    ensures { ListsPath origin node tails heads tree output result }
{
    match list_back(origin, node, tails, heads, tree, output) {
        Ok(count) => {
            output[..count as usize].reverse();
            Listed::from(count)
        }
        Err(refusal) => Listed::from(refusal),
    }
}

// The nodes from a node to the collector, at the start of the output.
pub fn list_to_collector(
    collector: u16,
    node: u16,
    tails: &[u16],
    heads: &[u16],
    tree: &[u16],
    output: &mut [u16],
) -> Listed
    ensures { ListsToCollector collector node tails heads tree output result }
{
    match list_back(collector, node, heads, tails, tree, output) {
        Ok(count) => Listed::from(count),
        Err(refusal) => Listed::from(refusal),
    }
}
