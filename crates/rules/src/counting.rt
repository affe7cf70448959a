//! A count of an item's pieces.

ghost use Rattle.std.specs.Prelude.{◌≡◌};
ghost use Rattle.memory.specs.Lent.{words, Same};
ghost use Rattle.rules.specs.Counting.{agreed, lost, found, settled, counted};
ghost use Rattle.rules.specs.Outcome.{outcome, paired};

use crate::checks::{known_item, next_document, some_count};
use crate::going::{goods_fit, issued};
use crate::refused::Refused;
use crate::totals::raise;
use layout::Total;
use memory::Memory;
use records::{Account, Lot, Stock};
use taking::Want;
use wire::Refusal;

// As many pieces as there were: a document, and nothing else.
fn agreed(memory: &mut Memory<'_>, stock: Stock) -> Result<(u64, u64), Refused>
    ensures outcome { outcome (paired result) (words memory.new) ≡ agreed stock (words memory.old) }
    ensures same { Same memory.old memory.new }
{
    let Some(_document) = next_document(memory.view()) else {
        return Err(Refused::first(Refusal::OverLimits));
    };
    raise(memory, Total::Documents, 1);
    Ok((stock.pieces, stock.worth))
}

// So many pieces fewer than there were: the oldest are lost, at what they cost.
fn lost(memory: &mut Memory<'_>, want: Want, stock: Stock) -> Result<(u64, u64), Refused>
    ensures outcome { outcome (paired result) (words memory.new) ≡ lost memory.old.limits want stock (words memory.old) }
    ensures same { Same memory.old memory.new }
{
    let Some(document) = goods_fit(memory.view(), want) else {
        return Err(Refused::first(Refusal::OverLimits));
    };
    let taken = taking::take_all(memory, &[want], &mut []);
    issued(memory, Account::Losses, want, taken.cost, document);
    Ok((stock.pieces, stock.worth))
}

// So many pieces more than there were: a lot that costs nothing.
fn found(
    memory: &mut Memory<'_>,
    item: u32,
    pieces: u32,
    stock: Stock,
) -> Result<(u64, u64), Refused>
    ensures outcome { outcome (paired result) (words memory.new) ≡ found memory.old.limits item pieces stock (words memory.old) }
    ensures same { Same memory.old memory.new }
{
    let Some(document) = next_document(memory.view()) else {
        return Err(Refused::first(Refusal::OverLimits));
    };
    let lot = Lot {
        item,
        pieces,
        cost: 0,
        document,
    };
    let Ok(cell) = store::add_lot(memory, lot) else {
        return Err(Refused::first(Refusal::OverLimits));
    };
    store::count_in(memory, cell);
    raise(memory, Total::Documents, 1);
    Ok((stock.pieces, stock.worth))
}

// By what is there of the item.
fn settled(
    memory: &mut Memory<'_>,
    item: u32,
    pieces: u32,
    stock: Stock,
) -> Result<(u64, u64), Refused>
    ensures outcome { outcome (paired result) (words memory.new) ≡ settled memory.old.limits item pieces stock (words memory.old) }
    ensures same { Same memory.old memory.new }
{
    let there = u64::from(pieces);
    if there < stock.pieces {
        let pieces = stock.pieces - there;
        return lost(memory, Want { item, pieces }, stock);
    }
    if there == stock.pieces {
        return agreed(memory, stock);
    }
    found(memory, item, (there - stock.pieces) as u32, stock)
}

/// So many pieces of an item are there: its pieces and their cost before, or why it is refused.
pub fn counted(memory: &mut Memory<'_>, item: u64, pieces: u64) -> Result<(u64, u64), Refused>
    ensures outcome { outcome (paired result) (words memory.new) ≡ counted memory.old.limits item pieces (words memory.old) }
    ensures same { Same memory.old memory.new }
{
    let Some(item) = known_item(memory.limits, item) else {
        return Err(Refused::first(Refusal::BadField));
    };
    let Some(pieces) = some_count(pieces) else {
        return Err(Refused::first(Refusal::BadField));
    };
    let stock = memory.view().stock(item);
    settled(memory, item, pieces, stock)
}
