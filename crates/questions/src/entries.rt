//! Entries from a number on, written as an answer while they are counted down.

ghost use Rattle.std.specs.Prelude.{◌≡◌, ◌+◌, ◌*◌, ◌^◌, ◌<◌, ◌≤◌, ◌++◌, length, take};
ghost use Rattle.fields.specs.Written.{wrote, over};
ghost use Rattle.memory.specs.Lent.{seen};
ghost use Rattle.questions.specs.Entries.{entry_of, entries_on, entries_written};
ghost use Rattle.std.specs.List.{flat_map};
ghost use Rattle.wire.specs.Rows.{entry_bytes};
ghost use Rattle.wire.specs.Told.{entry_told};

use fields::{ONE_FIELD, ROW_OF_FOUR};
use layout::Counter;
use memory::View;
use records::Entry;
use wire::{EntryLine, Line};

// An entry as a line of an answer.
fn line(entry: Entry) -> EntryLine
    ensures { entry_told result ≡ entry_of entry }
{
    EntryLine {
        left: u64::from(entry.left),
        right: u64::from(entry.right),
        amount: entry.amount,
        document: entry.document,
    }
}

// Writes the lines of so many entries behind the head, from the last of them back to the first.
fn put_entries(view: View<'_>, first: u32, many: u32, answer: &mut [u8])
    requires numbers { first + many < 2 ^ 32 }
    requires room { 9 + 32 * many ≤ length answer.old }
    ensures { answer.new ≡ over (take 9 answer.old ++ flat_map entry_bytes (entries_on view.entry.limits first many (seen view.entry))) answer.old }
{
    for left in (0..many).rev() {
        let _ = line(view.entry(first + left)).put(answer, left as usize);
    }
}

/// Writes the entries from `first` on, `count` at most, as an answer: its length, or none where the bytes are fewer than the limits ask for,
/// or than the answer has, as it can be where more than 256 entries are wanted.
pub fn write_entries(view: View<'_>, first: u64, count: u32, answer: &mut [u8]) -> Option<usize>
    ensures { wrote result answer.new ≡ entries_written view.entry.limits first count (seen view.entry) answer.old }
{
    let entries = view.count(Counter::Entries);
    let first = first.min(u64::from(entries)) as u32;
    let many = count.min(entries - first);
    let length = ONE_FIELD + ROW_OF_FOUR * many as usize;
    if answer.len() < view.limits.answer_need() || answer.len() < length {
        return None;
    }
    let _ = EntryLine::begin(answer, u64::from(many));
    put_entries(view, first, many, answer);
    Some(length)
}
