//! The totals in the head of memory.

ghost use Rattle.std.specs.Prelude.{◌≡◌};
ghost use Rattle.memory.specs.Lent.{WideAlone};
ghost use Rattle.rules.specs.Totals.{raised, lowered};

use layout::Total;
use memory::Memory;

/// Adds to a total.
#[tactic(auto, unfolding(crate::specs::Totals::raised))]
pub fn raise(memory: &mut Memory<'_>, which: Total, by: u64)
    ensures wide { memory.new.wide.now ≡ raised which by memory.old.wide.now }
    ensures alone { WideAlone memory.old memory.new }
{
    let total = memory.view().total(which);
    memory.put_total(which, total.saturating_add(by));
}

/// Takes from a total.
#[tactic(auto, unfolding(crate::specs::Totals::lowered))]
pub fn lower(memory: &mut Memory<'_>, which: Total, by: u64)
    ensures wide { memory.new.wide.now ≡ lowered which by memory.old.wide.now }
    ensures alone { WideAlone memory.old memory.new }
{
    let total = memory.view().total(which);
    memory.put_total(which, total.saturating_sub(by));
}
