//! Recipes: of what an item is made.

ghost use Rattle.std.specs.Prelude.{◌≡◌, true, length};
ghost use Rattle.firm.specs.Refusals.{good_parts};
ghost use Rattle.layout.specs.declared.head.Total.TheVariants.{Documents};
ghost use Rattle.memory.specs.Books.{total_of};
ghost use Rattle.memory.specs.Lent.{seen, words, Same, NarrowAlone};
ghost use Rattle.wire.specs.Rows.{nth};
ghost use Rattle.wire.specs.Said.{parts_in};
ghost use Rattle.rules.specs.Checks.{if};
ghost use Rattle.rules.specs.Outcome.{outcome, numbered};
ghost use Rattle.rules.specs.Recipes.{good_row, some_parts, recipe_fits, parts_added, recipe_kept, made_of_bytes};

use crate::checks::{known_item, next_document, within};
use crate::refused::Refused;
use crate::totals::raise;
use layout::{Counter, Total, at_most, below};
use memory::{Memory, View};
use records::Part;
use wire::{RecipePart, Refusal, Row};

/// The most parts of a recipe.
const MOST_PARTS: u32 = 16;
/// The most pieces of a part that go into one piece.
const MOST_EACH: u32 = 1000;

// The k-th of the parts as a row, if it is of an item with a smaller number than the one that is made, 1 to 1,000 times.
fn good_row(item: u32, parts: &[u8], k: usize) -> Option<Part>
    ensures { result ≡ good_row item (nth (parts_in parts.now) k) }
{
    let part = RecipePart::nth(parts, k)?;
    let each = at_most(part.each, MOST_EACH).filter(|n| 1 <= *n)?;
    let item = below(part.item, item)?;
    Some(Part { item, each })
}

// Whether each part is a good one.
#[tactic(auto, using(crate::proofs::PartRows::good_turns, crate::proofs::PartRows::good_stops, crate::proofs::PartRows::good_ends))]
fn are_good(item: u32, parts: &[u8]) -> bool
    ensures { result ≡ good_parts (parts_in parts.now) item }
{
    for k in 0..RecipePart::count(parts) {
        let Some(_good) = good_row(item, parts, k) else {
            return false;
        };
    }
    true
}

// How many parts there are, if they are 1 to 16, each a good one.
fn some_parts(item: u32, parts: &[u8]) -> Option<u32>
    ensures { result ≡ if (some_parts (parts_in parts.now) item) (length (parts_in parts.now)) }
{
    let count = at_most(RecipePart::count(parts) as u64, MOST_PARTS).filter(|n| 1 <= *n)?;
    are_good(item, parts).then_some(count)
}

// The next document's number, if a recipe of so many parts is within the limits.
fn fits(view: View<'_>, count: u32) -> Option<u64>
    ensures { result ≡ if (recipe_fits view.entry.limits count (seen view.entry)) (total_of Documents view.entry.wide.now) }
{
    let rows = u64::from(view.count(Counter::Parts));
    if !within(rows, 1 + u64::from(count), u64::from(view.limits.parts)) {
        return None;
    }
    next_document(view)
}

// Keeps the parts, all of them good ones, each behind the other.
#[tactic(auto, using(crate::proofs::PartRows::kept_none, crate::proofs::PartRows::kept_ends))]
fn add_parts(memory: &mut Memory<'_>, item: u32, parts: &[u8])
    requires { good_parts (parts_in parts.now) item ≡ true }
    ensures narrow { memory.new.narrow.now ≡ parts_added memory.old.limits (parts_in parts.now) memory.old.narrow.now }
    ensures alone { NarrowAlone memory.old memory.new }
{
    for k in 0..RecipePart::count(parts) {
        let Some(row) = good_row(item, parts, k) else {
            return;
        };
        let _ = store::add_part(memory, row);
    }
}

// Keeps a recipe, which is a document.
#[tactic(auto, unfolding(crate::specs::Recipes::recipe_kept))]
fn kept(memory: &mut Memory<'_>, item: u32, count: u32, parts: &[u8])
    requires good { good_parts (parts_in parts.now) item ≡ true }
    requires all { count ≡ length (parts_in parts.now) }
    ensures words { words memory.new ≡ recipe_kept memory.old.limits item (parts_in parts.now) (words memory.old) }
    ensures same { Same memory.old memory.new }
{
    let _ = store::add_recipe(memory, item, count);
    add_parts(memory, item, parts);
    raise(memory, Total::Documents, 1);
}

/// From now on an item is made of the parts that bytes are: the document's number, or why it is refused.
pub fn made_of(memory: &mut Memory<'_>, item: u64, parts: &[u8]) -> Result<u64, Refused>
    ensures outcome { outcome (numbered result) (words memory.new) ≡ made_of_bytes memory.old.limits item parts.now (words memory.old) }
    ensures same { Same memory.old memory.new }
{
    if !wire::are_parts(parts) {
        return Err(Refused::first(Refusal::Unreadable));
    }
    let Some(item) = known_item(memory.limits, item) else {
        return Err(Refused::first(Refusal::BadField));
    };
    let Some(count) = some_parts(item, parts) else {
        return Err(Refused::first(Refusal::BadField));
    };
    let Some(document) = fits(memory.view(), count) else {
        return Err(Refused::first(Refusal::OverLimits));
    };
    kept(memory, item, count, parts);
    Ok(document)
}
