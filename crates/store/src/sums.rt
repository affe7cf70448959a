//! Sums that are kept: pieces and worth of each item, both sides of each account. Each kind changes here and nowhere else.

ghost use Rattle.std.specs.Prelude.{◌≡◌};
ghost use Rattle.memory.specs.Lent.{words, WideAlone};
ghost use Rattle.store.specs.Steps.{lot_counted, count_in, counted_out, left_posted, right_posted, post};

use memory::Memory;
use records::{Balance, Entry, Lot, Stock};

#[tactic(auto, unfolding(crate::specs::Steps::lot_counted))]
fn count_lot(memory: &mut Memory<'_>, lot: Lot)
    ensures wide { memory.new.wide.now ≡ lot_counted memory.old.limits lot memory.old.wide.now }
    ensures alone { WideAlone memory.old memory.new }
{
    if lot.item >= memory.limits.items {
        return;
    }
    let stock = memory.view().stock(lot.item);
    let more = Stock {
        pieces: stock.pieces.saturating_add(u64::from(lot.pieces)),
        worth: stock.worth.saturating_add(lot.cost),
    };
    memory.put_stock(lot.item, more);
}

/// Counts the lot of a cell for its item: so many pieces more on hand, which cost so much more.
pub fn count_in(memory: &mut Memory<'_>, cell: u32)
    ensures wide { memory.new.wide.now ≡ count_in memory.old.limits cell (words memory.old) }
    ensures alone { WideAlone memory.old memory.new }
{
    let lot = memory.view().lot(cell);
    count_lot(memory, lot);
}

/// Counts pieces of an item out: so many fewer on hand, which cost so much less.
#[tactic(auto, unfolding(crate::specs::Steps::counted_out))]
pub fn count_out(memory: &mut Memory<'_>, item: u32, pieces: u64, cost: u64)
    ensures wide { memory.new.wide.now ≡ counted_out memory.old.limits item pieces cost memory.old.wide.now }
    ensures alone { WideAlone memory.old memory.new }
{
    if item >= memory.limits.items {
        return;
    }
    let stock = memory.view().stock(item);
    let less = Stock {
        pieces: stock.pieces.saturating_sub(pieces),
        worth: stock.worth.saturating_sub(cost),
    };
    memory.put_stock(item, less);
}

#[tactic(auto, unfolding(crate::specs::Steps::left_posted))]
fn post_left(memory: &mut Memory<'_>, account: u32, amount: u64)
    ensures wide { memory.new.wide.now ≡ left_posted account amount memory.old.wide.now }
    ensures alone { WideAlone memory.old memory.new }
{
    let balance = memory.view().balance(account);
    let left = balance.left.saturating_add(amount);
    memory.put_balance(account, Balance { left, ..balance });
}

#[tactic(auto, unfolding(crate::specs::Steps::right_posted))]
fn post_right(memory: &mut Memory<'_>, account: u32, amount: u64)
    ensures wide { memory.new.wide.now ≡ right_posted account amount memory.old.wide.now }
    ensures alone { WideAlone memory.old memory.new }
{
    let balance = memory.view().balance(account);
    let right = balance.right.saturating_add(amount);
    memory.put_balance(account, Balance { right, ..balance });
}

/// Posts an entry: its amount more on the left of one account and on the right of another.
pub fn post(memory: &mut Memory<'_>, entry: Entry)
    ensures wide { memory.new.wide.now ≡ post entry memory.old.wide.now }
    ensures alone { WideAlone memory.old memory.new }
{
    post_left(memory, entry.left, entry.amount);
    post_right(memory, entry.right, entry.amount);
}
