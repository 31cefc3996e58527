// Making a test load: its arcs, and the columns that are filled. crate test_load (specs/Load.antt, Making.antt) says which load it is.
#![tactic(auto)]

mod arcs;
mod pairs;

ghost use Rattle.std.specs.Prelude.{◌≡◌, cond, ltb, ◌≤◌, length, IfOk};
ghost use Rattle.std.proofs.lemmas.List.Edits.{sets};
ghost use Rattle.table.specs.Table.{most_nodes, most_arcs, tails_of, heads_of, lengths_of};
ghost use Rattle.table.specs.Refusals.{no_refusal, refusal};
ghost use Rattle.table.specs.Told.{told};
ghost use Rattle.test_load.specs.Load.{load};
ghost use Rattle.test_load.specs.Making.{range_bad, MakesLoad};
ghost use Rattle.load_maker.specs.Says.{load_of, made_answer};

use arcs::Recipe;
use table::faults::{Fault, Refusal};
use table::{DOWN, MOST_ARCS};
use test_load::Made;

// The chance that says that every pair has an arc.
const CERTAIN: u32 = 65536;

// 16: the chance is above that of every pair, or the largest length is no length in use.
#[tactic(auto, unfolding(test_load::specs::Making::range_bad))]
fn bad_range(chance: u32, largest: u32) -> bool
    ensures { result ≡ range_bad chance largest }
{
    CERTAIN < chance || largest == 0 || largest == DOWN
}

// 16: the numbers of a load, as a recipe.
fn check_range(n: u32, seed: u32, chance: u32, largest: u32) -> Result<Recipe, Refusal>
    requires { n ≤ most_nodes }
    ensures told { told result ≡ cond (range_bad chance largest) (refusal 16 0) no_refusal }
    ensures same { IfOk result (λ r. load_of r ≡ load n seed chance largest) }
{
    if bad_range(chance, largest) {
        return Err(Fault::LoadRange.at(0));
    }
    Ok(Recipe {
        n: n as u16,
        seed,
        chance,
        largest,
    })
}

// 17: the number of a recipe's arcs. They are counted before any is put, since a refusal touches nothing.
fn check_size(recipe: Recipe) -> Result<usize, Refusal>
    ensures told { told result ≡ cond (ltb most_arcs (length (load_of recipe))) (refusal 17 0) no_refusal }
    ensures count { IfOk result (λ count. count ≡ length (load_of recipe)) }
{
    let count = recipe.arcs().count();
    if MOST_ARCS < count {
        return Err(Fault::LoadSize.at(0));
    }
    Ok(count)
}

// Puts the arcs at the starts of the columns, and gives how many there are.
fn fill(recipe: Recipe, tails: &mut [u16], heads: &mut [u16], lengths: &mut [u32])
    requires few { length (load_of recipe) ≤ most_arcs }
    requires room { (most_arcs ≤ length tails.old) × (most_arcs ≤ length heads.old) × (most_arcs ≤ length lengths.old) }
    ensures tails { tails.new ≡ sets tails.old 0 (tails_of (load_of recipe)) }
    ensures heads { heads.new ≡ sets heads.old 0 (heads_of (load_of recipe)) }
    ensures lengths { lengths.new ≡ sets lengths.old 0 (lengths_of (load_of recipe)) }
{
    for (i, arc) in recipe.arcs().enumerate() {
        tails[i] = arc.tail;
        heads[i] = arc.head;
        lengths[i] = arc.length;
    }
}

// The tests in their order, then the arcs at the starts of the columns; gives how many there are.
pub fn make(
    n: u32,
    seed: u32,
    chance: u32,
    largest: u32,
    tails: &mut [u16],
    heads: &mut [u16],
    lengths: &mut [u32],
) -> Result<usize, Refusal>
    ensures answer { MakesLoad n seed chance largest tails heads lengths (made_answer result) }
    ensures few { IfOk result (λ count. count ≤ most_arcs) }
{
    table::check_count(n as usize)?;
    table::check_room(tails.len(), heads.len(), lengths.len())?;
    let recipe = check_range(n, seed, chance, largest)?;
    let count = check_size(recipe)?;
    fill(recipe, tails, heads, lengths);
    Ok(count)
}

// Makes a test load at the starts of the three columns, which are at least 6,000 long, and gives how many arcs it has. The rest is left as it was, and a
// refusal leaves all as it was.
pub fn make_load(
    n: u32,
    seed: u32,
    chance: u32,
    largest: u32,
    tails: &mut [u16],
    heads: &mut [u16],
    lengths: &mut [u32],
) -> Made
    ensures { MakesLoad n seed chance largest tails heads lengths result }
{
    match make(n, seed, chance, largest, tails, heads, lengths) {
        Ok(count) => Made {
            number: 0,
            place: 0,
            arcs: count as u32,
        },
        Err(refusal) => Made::from(refusal),
    }
}
