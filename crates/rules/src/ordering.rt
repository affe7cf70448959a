//! Orders: to buy, and to sell.

ghost use Rattle.std.specs.Prelude.{◌≡◌, true, false};
ghost use Rattle.memory.specs.Lent.{words, Same};
ghost use Rattle.rules.specs.Ordering.{ordered};
ghost use Rattle.rules.specs.Outcome.{outcome, numbered};

use crate::checks::{known_item, next_document, some_pieces, some_price};
use crate::refused::Refused;
use crate::totals::raise;
use layout::Total;
use memory::Memory;
use records::Order;
use wire::Refusal;

// An order of one kind: its number, or why it is refused.
fn ordered(
    memory: &mut Memory<'_>,
    sells: bool,
    item: u64,
    pieces: u64,
    price: u64,
) -> Result<u64, Refused>
    ensures outcome { outcome (numbered result) (words memory.new) ≡ ordered memory.old.limits sells item pieces price (words memory.old) }
    ensures same { Same memory.old memory.new }
{
    let Some(item) = known_item(memory.limits, item) else {
        return Err(Refused::first(Refusal::BadField));
    };
    let Some(pieces) = some_pieces(pieces) else {
        return Err(Refused::first(Refusal::BadField));
    };
    let Some(price) = some_price(price) else {
        return Err(Refused::first(Refusal::BadField));
    };
    let Some(_document) = next_document(memory.view()) else {
        return Err(Refused::first(Refusal::OverLimits));
    };
    let order = Order {
        sells,
        item,
        pieces,
        price,
        moved: 0,
        billed: 0,
    };
    let Ok(number) = store::add_order(memory, order) else {
        return Err(Refused::first(Refusal::OverLimits));
    };
    raise(memory, Total::Documents, 1);
    Ok(u64::from(number))
}

/// An order to buy: its number, or why it is refused.
pub fn buys(memory: &mut Memory<'_>, item: u64, pieces: u64, price: u64) -> Result<u64, Refused>
    ensures outcome { outcome (numbered result) (words memory.new) ≡ ordered memory.old.limits false item pieces price (words memory.old) }
    ensures same { Same memory.old memory.new }
{
    ordered(memory, false, item, pieces, price)
}

/// An order to sell: its number, or why it is refused.
pub fn sells(memory: &mut Memory<'_>, item: u64, pieces: u64, price: u64) -> Result<u64, Refused>
    ensures outcome { outcome (numbered result) (words memory.new) ≡ ordered memory.old.limits true item pieces price (words memory.old) }
    ensures same { Same memory.old memory.new }
{
    ordered(memory, true, item, pieces, price)
}
