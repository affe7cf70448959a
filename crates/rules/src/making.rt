//! Pieces that are made by a recipe of what lies there.

ghost use Rattle.std.specs.Prelude.{◌≡◌, nat_le, MatchResult};
ghost use Rattle.firm.specs.Calls.{lots};
ghost use Rattle.layout.specs.declared.head.Total.TheVariants.{Documents};
ghost use Rattle.memory.specs.Books.{total_of, recipe_of};
ghost use Rattle.memory.specs.Lent.{seen, words, Same};
ghost use Rattle.store.specs.Steps.{add_lot};
ghost use Rattle.taking.specs.Takes.{tally, told, take_counted};
ghost use Rattle.rules.specs.Checks.{if};
ghost use Rattle.rules.specs.Making.{part_wanted, wants_of, in_all, all_lie, empties, frees, has_place, makes_fits, lot_kept, stored_new, cost_all, made, makes};
ghost use Rattle.rules.specs.Outcome.{outcome, told_by};

use crate::checks::{known_item, next_document, some_pieces};
use crate::refused::Refused;
use crate::totals::raise;
use layout::{Counter, Total};
use memory::{Memory, View};
use records::{Lot, Recipe};
use taking::{Taken, Want};
use wire::Refusal;

/// The most parts of a recipe.
const MOST_PARTS: usize = 16;

// The recipe of an item, if it has one.
fn known_recipe(view: View<'_>, item: u32) -> Option<Recipe>
    ensures { result ≡ if (nat_le 1 (recipe_of item view.entry.narrow.now).parts) (recipe_of item view.entry.narrow.now) }
{
    Some(view.recipe(item)).filter(|recipe| 1 <= recipe.parts)
}

// What a part asks for so many pieces.
fn part_wanted(view: View<'_>, row: u32, pieces: u32) -> Want
    ensures { result ≡ part_wanted view.entry.limits row pieces view.entry.narrow.now }
{
    let part = view.part(row);
    Want {
        item: part.item,
        pieces: u64::from(part.each) * u64::from(pieces),
    }
}

// Fills in what the rows of a recipe ask for so many pieces, as many as a recipe can have. An array that is answered would be copied, by a function
// of C's library.
fn fill_wants(view: View<'_>, recipe: Recipe, pieces: u32, wants: &mut [Want; MOST_PARTS])
    ensures { wants.new ≡ wants_of view.entry.limits recipe pieces view.entry.narrow.now }
{
    for part in 0..MOST_PARTS {
        let row = recipe.first.saturating_add(part as u32);
        wants[part] = part_wanted(view, row, pieces);
    }
}

// Pieces of an item that are wanted in all: a recipe may name it more than once.
#[tactic(auto, unfolding(crate::specs::Making::in_all))]
fn in_all(wants: &[Want], item: u32) -> u64
    ensures { result ≡ in_all wants.now item }
{
    let mut all: u64 = 0;
    for want in wants {
        if want.item == item {
            all = all.saturating_add(want.pieces);
        }
    }
    all
}

// Whether so many lie there of each item.
fn all_lie(view: View<'_>, wants: &[Want]) -> bool
    ensures { result ≡ all_lie wants.now view.entry.wide.now }
{
    wants.iter().all(|want| in_all(wants, want.item) <= view.stock(want.item).pieces)
}

// Whether what is wanted takes all pieces of the oldest lot of an item.
fn empties(view: View<'_>, wants: &[Want], want: Want) -> bool
    ensures { result ≡ empties view.entry.limits wants.now (seen view.entry) want }
{
    let Some(cell) = store::first_lot(view, want.item) else {
        return false;
    };
    u64::from(view.lot(cell).pieces) <= in_all(wants, want.item)
}

// Whether what is wanted takes all pieces of some lot.
fn frees(view: View<'_>, wants: &[Want]) -> bool
    ensures { result ≡ frees view.entry.limits wants.now (seen view.entry) }
{
    wants.iter().any(|want| empties(view, wants, *want))
}

// Whether there is a place for one more lot, now or once what is wanted is taken.
fn has_place(view: View<'_>, wants: &[Want]) -> bool
    ensures { result ≡ has_place view.entry.limits wants.now (seen view.entry) }
{
    view.count(Counter::Lots) < view.limits.lots || frees(view, wants)
}

// The next document's number, if what is made is within the limits: it costs what went into it, and nothing is entered.
fn fits(view: View<'_>, wants: &[Want]) -> Option<u64>
    ensures { result ≡ if (makes_fits view.entry.limits wants.now (seen view.entry)) (total_of Documents view.entry.wide.now) }
{
    if !has_place(view, wants) {
        return None;
    }
    next_document(view)
}

// What is wanted is taken, told in the answer, and counted off for its items.
fn take(memory: &mut Memory<'_>, wants: &[Want], answer: &mut [u8]) -> Taken
    ensures words { words memory.new ≡ (take_counted memory.old.limits wants.now (words memory.old)).slices }
    ensures same { Same memory.old memory.new }
    ensures answer { tally answer.new result ≡ told (take_counted memory.old.limits wants.now (words memory.old)).parts answer.old }
    ensures cost { result.cost ≡ cost_all (take_counted memory.old.limits wants.now (words memory.old)) }
{
    taking::take_counted(memory, wants, answer)
}

// Keeps a lot and counts it for its item, if it has a place.
fn keep_lot(memory: &mut Memory<'_>, lot: Lot)
    ensures words { words memory.new ≡ lot_kept memory.old.limits (add_lot memory.old.limits lot (words memory.old)) }
    ensures same { Same memory.old memory.new }
{
    if let Ok(cell) = store::add_lot(memory, lot) {
        store::count_in(memory, cell);
    }
}

// Keeps the lot that is made. Nothing is entered.
#[tactic(auto, unfolding(crate::specs::Making::stored_new))]
fn store_new(memory: &mut Memory<'_>, lot: Lot)
    ensures words { words memory.new ≡ stored_new memory.old.limits lot (words memory.old) }
    ensures same { Same memory.old memory.new }
{
    keep_lot(memory, lot);
    raise(memory, Total::Documents, 1);
}

/// So many pieces of an item are made by its recipe: what was taken of which lots, which the answer tells, or why it is refused.
pub fn makes(
    memory: &mut Memory<'_>,
    item: u64,
    pieces: u64,
    answer: &mut [u8],
) -> Result<Taken, Refused>
    ensures outcome { outcome (told_by (λ taken. lots (made memory.old.limits item pieces (words memory.old)).parts) result) (words memory.new) ≡ makes memory.old.limits item pieces (words memory.old) }
    ensures same { Same memory.old memory.new }
    ensures answer { MatchResult result (λ taken. tally answer.new taken ≡ told (made memory.old.limits item pieces (words memory.old)).parts answer.old) (λ refused. answer.new ≡ answer.old) }
{
    let Some(item) = known_item(memory.limits, item) else {
        return Err(Refused::first(Refusal::BadField));
    };
    let Some(pieces) = some_pieces(pieces) else {
        return Err(Refused::first(Refusal::BadField));
    };
    let Some(recipe) = known_recipe(memory.view(), item) else {
        return Err(Refused::first(Refusal::NoRecipe));
    };
    let mut rows = [Want { item: 0, pieces: 0 }; MOST_PARTS];
    fill_wants(memory.view(), recipe, pieces, &mut rows);
    let wants = &rows[..MOST_PARTS.min(recipe.parts as usize)];
    let Some(wants) = all_lie(memory.view(), wants).then_some(wants) else {
        return Err(Refused::second(Refusal::NotOnHand));
    };
    let Some(document) = fits(memory.view(), wants) else {
        return Err(Refused::first(Refusal::OverLimits));
    };
    let taken = take(memory, wants, answer);
    let lot = Lot {
        item,
        pieces,
        cost: taken.cost,
        document,
    };
    store_new(memory, lot);
    Ok(taken)
}
