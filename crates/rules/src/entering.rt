//! Amounts that are entered.

ghost use Rattle.std.specs.Prelude.{◌≡◌};
ghost use Rattle.memory.specs.Lent.{words, Same};
ghost use Rattle.rules.specs.Entering.{entered};

use memory::Memory;
use records::Entry;

/// Keeps an entry and posts it on both its accounts; one of nothing is not made.
#[tactic(auto, unfolding(crate::specs::Entering::entered))]
#[inline(always)]
pub fn enter(memory: &mut Memory<'_>, entry: Entry)
    ensures words { words memory.new ≡ entered memory.old.limits entry (words memory.old) }
    ensures same { Same memory.old memory.new }
{
    if entry.amount == 0 {
        return;
    }
    let _ = store::add_entry(memory, entry);
    store::post(memory, entry);
}
