//! Recipes: rows of parts, one recipe behind the other, each with a row in front that says what it makes and of how many parts.

ghost use Rattle.std.specs.Prelude.{◌≡◌};
ghost use Rattle.memory.specs.Lent.{NarrowAlone};
ghost use Rattle.store.specs.Steps.{after, add_part, add_recipe};

use crate::refusal::Refusal;
use layout::Counter;
use memory::Memory;
use records::{Part, Recipe};

/// Keeps one more part, and answers its row.
#[tactic(auto, unfolding(crate::specs::Steps::part_placed))]
pub fn add_part(memory: &mut Memory<'_>, value: Part) -> Result<u32, Refusal>
    ensures narrow { after result memory.new.narrow.now ≡ add_part memory.old.limits value memory.old.narrow.now }
    ensures alone { NarrowAlone memory.old memory.new }
{
    let limits = memory.limits;
    let count = memory.view().count(Counter::Parts);
    if count >= limits.parts {
        return Err(Refusal::Full);
    }
    memory.put_part(count, value);
    memory.put_count(Counter::Parts, count + 1);
    Ok(count)
}

/// Begins the recipe of an item, of so many parts, and answers the row in front of them.
#[tactic(auto, unfolding(crate::specs::Steps::recipe_placed))]
pub fn add_recipe(memory: &mut Memory<'_>, item: u32, parts: u32) -> Result<u32, Refusal>
    ensures narrow { after result memory.new.narrow.now ≡ add_recipe memory.old.limits item parts memory.old.narrow.now }
    ensures alone { NarrowAlone memory.old memory.new }
{
    if item >= memory.limits.items {
        return Err(Refusal::NoSuchItem);
    }
    let front = add_part(memory, Part { item, each: parts })?;
    let recipe = Recipe {
        first: front + 1,
        parts,
    };
    memory.put_recipe(item, recipe);
    Ok(front)
}
