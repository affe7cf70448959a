//! Lots: a row for each item, from the oldest lot to the youngest, and one of the free cells.

ghost use Rattle.std.specs.Prelude.{◌≡◌};
ghost use Rattle.records.specs.State.{state};
ghost use Rattle.memory.specs.Lent.{seen, words, Same, NarrowAlone};
ghost use Rattle.store.specs.Steps.{after, moved_in, moved_out, lot_placed, lot_freed, add_lot, remove_lot, nth_lot, first_lot, lot_after};

use crate::refusal::Refusal;
use crate::rows::{first, nth, push};
use layout::{Counter, Limits};
use memory::{Memory, View};
use records::Lot;

#[tactic(auto, unfolding(crate::specs::Steps::moved_in))]
#[inline(always)]
fn move_in(memory: &mut Memory<'_>, item: u32, cell: u32)
    ensures narrow { memory.new.narrow.now ≡ moved_in memory.old.limits item cell memory.old.narrow.now }
    ensures alone { NarrowAlone memory.old memory.new }
{
    let free = memory.limits.items;
    let rows = memory.limits.lot_rows();
    rows.remove_after(memory.narrow, free, rows.header(free), cell);
    push(memory.narrow, rows, item, cell);
}

#[tactic(auto, unfolding(crate::specs::Steps::moved_out))]
#[inline(always)]
fn move_out(memory: &mut Memory<'_>, item: u32, cell: u32)
    ensures narrow { memory.new.narrow.now ≡ moved_out memory.old.limits item cell memory.old.narrow.now }
    ensures alone { NarrowAlone memory.old memory.new }
{
    let free = memory.limits.items;
    let rows = memory.limits.lot_rows();
    rows.move_first(memory.narrow, item, free, cell);
}

#[tactic(auto, unfolding(crate::specs::Steps::lot_placed))]
#[inline(always)]
fn place_lot(memory: &mut Memory<'_>, cell: u32, value: Lot)
    ensures words { words memory.new ≡ lot_placed memory.old.limits cell value (words memory.old) }
    ensures same { Same memory.old memory.new }
{
    let count = memory.view().count(Counter::Lots);
    memory.put_lot(cell, value);
    move_in(memory, value.item, cell);
    memory.put_count(Counter::Lots, count.saturating_add(1));
}

/// Frees the cell of an item's oldest lot, which leaves the item's row.
#[tactic(auto, unfolding(crate::specs::Steps::lot_freed))]
#[inline(always)]
pub fn free_lot(memory: &mut Memory<'_>, item: u32, cell: u32)
    ensures narrow { memory.new.narrow.now ≡ lot_freed memory.old.limits item cell memory.old.narrow.now }
    ensures alone { NarrowAlone memory.old memory.new }
{
    let count = memory.view().count(Counter::Lots);
    move_out(memory, item, cell);
    memory.put_count(Counter::Lots, count.saturating_sub(1));
}

/// Keeps a lot, the youngest of its item, in a free cell.
#[inline(always)]
pub fn add_lot(memory: &mut Memory<'_>, value: Lot) -> Result<u32, Refusal>
    ensures words { after result (words memory.new) ≡ add_lot memory.old.limits value (words memory.old) }
    ensures same { Same memory.old memory.new }
{
    let limits = memory.limits;
    if value.item >= limits.items {
        return Err(Refusal::NoSuchItem);
    }
    let rows = limits.lot_rows();
    let free = rows.following(memory.view().narrow, rows.header(limits.items));
    let cell = free.ok_or(Refusal::Full)?;
    place_lot(memory, cell, value);
    Ok(cell)
}

/// Takes the oldest lot of an item out, and frees its cell. The wide words are only read.
pub fn remove_lot(
    wide: &[u64],
    narrow: &mut [u32],
    limits: Limits,
    item: u32,
) -> Result<Lot, Refusal>
    ensures { after result narrow.new ≡ remove_lot limits item (state wide.now narrow.old) }
{
    if item >= limits.items {
        return Err(Refusal::NoSuchItem);
    }
    let rows = limits.lot_rows();
    let cell = rows
        .following(narrow, rows.header(item))
        .ok_or(Refusal::NoLot)?;
    let view = View {
        wide,
        narrow,
        limits,
    };
    let lot = view.lot(cell);
    let mut memory = Memory {
        wide: &mut [],
        narrow,
        limits,
    };
    free_lot(&mut memory, item, cell);
    Ok(lot)
}

/// The lot of an item at `index`, counted from the oldest.
pub fn nth_lot(view: View<'_>, item: u32, index: u32) -> Option<Lot>
    ensures { result ≡ nth_lot view.entry.limits item index (seen view.entry) }
{
    let limits = view.limits;
    let cell = nth(view.narrow, limits.lot_rows(), limits.items, item, index)?;
    Some(view.lot(cell))
}

// A line that names its rows, see `entries.rt`.
/// The first of the cells of the lots of an item.
pub fn first_lot(view: View<'_>, item: u32) -> Option<u32>
    ensures { result ≡ first_lot view.entry.limits item view.entry.narrow.now }
{
    let limits = view.limits;
    first(view.narrow, limits.lot_rows(), limits.items, item)
}

/// The cell after `cell` in the row of its item.
pub fn lot_after(view: View<'_>, cell: u32) -> Option<u32>
    ensures { result ≡ lot_after view.entry.limits cell view.entry.narrow.now }
{
    view.limits.lot_rows().following(view.narrow, cell)
}
