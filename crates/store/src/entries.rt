//! Entries: by number, and a row for each account.

ghost use Rattle.std.specs.Prelude.{◌≡◌};
ghost use Rattle.memory.specs.Lent.{seen, words, Same, NarrowAlone};
ghost use Rattle.store.specs.Steps.{after, entry_linked, add_entry, nth_entry, first_entry, entry_after};

use crate::refusal::Refusal;
use crate::rows::{first, nth, push};
use layout::{ACCOUNTS, Counter};
use memory::{Memory, View};
use records::Entry;

#[tactic(auto, unfolding(crate::specs::Steps::entry_linked))]
#[inline(always)]
fn link_entry(memory: &mut Memory<'_>, value: Entry, entry: u32)
    ensures narrow { memory.new.narrow.now ≡ entry_linked memory.old.limits value entry memory.old.narrow.now }
    ensures alone { NarrowAlone memory.old memory.new }
{
    let rows = memory.limits.entry_rows();
    let cell = entry.saturating_mul(2);
    push(memory.narrow, rows, value.left, cell);
    push(memory.narrow, rows, value.right, cell.saturating_add(1));
}

/// Keeps one more entry, the last of its two accounts, and answers its number.
#[tactic(auto, unfolding(crate::specs::Steps::entry_placed))]
#[inline(always)]
pub fn add_entry(memory: &mut Memory<'_>, value: Entry) -> Result<u32, Refusal>
    ensures words { after result (words memory.new) ≡ add_entry memory.old.limits value (words memory.old) }
    ensures same { Same memory.old memory.new }
{
    if value.left >= ACCOUNTS || value.right >= ACCOUNTS {
        return Err(Refusal::NoSuchAccount);
    }
    let count = memory.view().count(Counter::Entries);
    if count >= memory.limits.entries {
        return Err(Refusal::Full);
    }
    memory.put_entry(count, value);
    link_entry(memory, value, count);
    memory.put_count(Counter::Entries, count + 1);
    Ok(count)
}

/// The entry of an account at `index`, counted from the first.
pub fn nth_entry(view: View<'_>, account: u32, index: u32) -> Option<Entry>
    ensures { result ≡ nth_entry view.entry.limits account index (seen view.entry) }
{
    let rows = view.limits.entry_rows();
    let cell = nth(view.narrow, rows, ACCOUNTS, account, index)?;
    Some(view.entry(cell / 2))
}

// Lots, orders and entries have such functions each: a line that names the rows that it is about.
/// The first of the cells of the entries of an account.
pub fn first_entry(view: View<'_>, account: u32) -> Option<u32>
    ensures { result ≡ first_entry view.entry.limits account view.entry.narrow.now }
{
    let rows = view.limits.entry_rows();
    first(view.narrow, rows, ACCOUNTS, account)
}

/// The cell after `cell` in the row of its account. The entry of a cell is half its number.
pub fn entry_after(view: View<'_>, cell: u32) -> Option<u32>
    ensures { result ≡ entry_after view.entry.limits cell view.entry.narrow.now }
{
    view.limits.entry_rows().following(view.narrow, cell)
}
