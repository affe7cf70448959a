//! Orders: by number, and a row for each item.

ghost use Rattle.std.specs.Prelude.{◌≡◌};
ghost use Rattle.memory.specs.Lent.{NarrowAlone};
ghost use Rattle.store.specs.Steps.{after, add_order, set_order, nth_order, first_order, order_after};

use crate::refusal::Refusal;
use crate::rows::{first, nth, push};
use layout::Counter;
use memory::{Memory, View};
use records::Order;

/// Keeps one more order, the last of its item, and answers its number.
#[tactic(auto, unfolding(crate::specs::Steps::order_placed))]
pub fn add_order(memory: &mut Memory<'_>, value: Order) -> Result<u32, Refusal>
    ensures narrow { after result memory.new.narrow.now ≡ add_order memory.old.limits value memory.old.narrow.now }
    ensures alone { NarrowAlone memory.old memory.new }
{
    let limits = memory.limits;
    if value.item >= limits.items {
        return Err(Refusal::NoSuchItem);
    }
    let count = memory.view().count(Counter::Orders);
    if count >= limits.orders {
        return Err(Refusal::Full);
    }
    memory.put_order(count, value);
    push(memory.narrow, limits.order_rows(), value.item, count);
    memory.put_count(Counter::Orders, count + 1);
    Ok(count)
}

/// Writes an order of that number anew.
pub fn set_order(memory: &mut Memory<'_>, order: u32, value: Order) -> Result<u32, Refusal>
    ensures narrow { after result memory.new.narrow.now ≡ set_order memory.old.limits order value memory.old.narrow.now }
    ensures alone { NarrowAlone memory.old memory.new }
{
    if order >= memory.view().count(Counter::Orders) {
        return Err(Refusal::NoSuchOrder);
    }
    memory.put_order(order, value);
    Ok(order)
}

/// The number of the order of an item at `index`, counted from the first.
pub fn nth_order(view: View<'_>, item: u32, index: u32) -> Option<u32>
    ensures { result ≡ nth_order view.entry.limits item index view.entry.narrow.now }
{
    let limits = view.limits;
    nth(view.narrow, limits.order_rows(), limits.items, item, index)
}

// A line that names its rows, see `entries.rt`.
/// The first of the orders of an item.
pub fn first_order(view: View<'_>, item: u32) -> Option<u32>
    ensures { result ≡ first_order view.entry.limits item view.entry.narrow.now }
{
    let limits = view.limits;
    first(view.narrow, limits.order_rows(), limits.items, item)
}

/// The order of the same item after `order`.
pub fn order_after(view: View<'_>, order: u32) -> Option<u32>
    ensures { result ≡ order_after view.entry.limits order view.entry.narrow.now }
{
    view.limits.order_rows().following(view.narrow, order)
}
