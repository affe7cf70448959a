//! One call: bytes in, answer bytes out, on memory that the caller lends.

ghost use Rattle.std.specs.Prelude.{◌≡◌, ◌+◌, ◌*◌, ◌≤◌, T, length};
ghost use Rattle.wire.specs.Calls.{call_of};
ghost use Rattle.rules.specs.Going.{goes};
ghost use Rattle.rules.specs.Receiving.{comes};
ghost use Rattle.rules.specs.Making.{makes};
ghost use Rattle.rules.specs.Outcome.{refusing};
ghost use Rattle.session.specs.Calling.{Said, done, lots_told, entries_told, holds, called_of, called, Fits};
ghost use Rattle.wire.specs.Said.{said as meant};
ghost use Rattle.firm.specs.Calls.{refused};
ghost use Rattle.layout.specs.Layout.{answer_need};
ghost use Rattle.memory.specs.Lent.{seen, words, Same};
ghost use Rattle.records.specs.State.{state};

use crate::short::say;
use fields::{ONE_FIELD, ROW_OF_FOUR};
use layout::Limits;
use memory::{Memory, View};
use rules::Refused;
use taking::Taken;
use wire::{Call, Refusal};

/// The words of the head that the limits stand in.
const LIMITS: usize = 5;

// That there is room for an answer is asked of six functions here, and of two in `questions`: it ties the limits to other bytes, so that a struct would have to lend both.
fn say_lots(view: View<'_>, item: u64, out: &mut [u8]) -> usize
    requires { answer_need view.limits ≤ length out.old }
    ensures { Said (lots_told view.entry.limits item (seen view.entry)) result out.old out.new }
{
    match rules::known_item(view.limits, item) {
        Some(item) => questions::write_lots(view, item, out).unwrap_or(0),
        None => say(Refused::first(Refusal::BadField), out),
    }
}

fn say_entries(view: View<'_>, first: u64, count: u64, out: &mut [u8]) -> usize
    requires { answer_need view.limits ≤ length out.old }
    ensures { Said (entries_told view.entry.limits first count (seen view.entry)) result out.old out.new }
{
    match rules::some_entries(count) {
        Some(count) => questions::write_entries(view, first, count, out).unwrap_or(0),
        None => say(Refused::first(Refusal::BadField), out),
    }
}

// How long an answer is that says what was taken.
fn taken_length(taken: Taken) -> usize
    ensures { result ≡ 9 + 32 * taken.lines }
{
    ONE_FIELD + ROW_OF_FOUR * taken.lines as usize
}

// Lets goods go: what was taken is in the answer already, and its length is that of so many lines. A function by itself, which makes its own
// `Memory`: where all that it calls on its way is inlined, the compiler keeps slices and limits in registers.
#[inline(never)]
fn say_goes(
    wide: &mut [u64],
    narrow: &mut [u32],
    limits: Limits,
    order: u64,
    pieces: u64,
    out: &mut [u8],
) -> usize
    requires { answer_need limits ≤ length out.old }
    ensures memory { state wide.new narrow.new ≡ (goes limits order pieces (state wide.old narrow.old)).left }
    ensures bytes { Said (goes limits order pieces (state wide.old narrow.old)).answer result out.old out.new }
{
    let mut memory = Memory {
        wide,
        narrow,
        limits,
    };
    match rules::goes(&mut memory, order, pieces, out) {
        Ok(taken) => taken_length(taken),
        Err(refused) => say(refused, out),
    }
}

// Keeps goods that come, in a function by itself as goods go.
#[inline(never)]
fn say_comes(
    wide: &mut [u64],
    narrow: &mut [u32],
    limits: Limits,
    order: u64,
    pieces: u64,
    out: &mut [u8],
) -> usize
    requires { answer_need limits ≤ length out.old }
    ensures memory { state wide.new narrow.new ≡ (comes limits order pieces (state wide.old narrow.old)).left }
    ensures bytes { Said (comes limits order pieces (state wide.old narrow.old)).answer result out.old out.new }
{
    let mut memory = Memory {
        wide,
        narrow,
        limits,
    };
    say(rules::comes(&mut memory, order, pieces), out)
}

// Makes pieces: what was taken is in the answer already, as where goods go.
fn say_makes(memory: &mut Memory<'_>, item: u64, pieces: u64, out: &mut [u8]) -> usize
    requires { answer_need memory.old.limits ≤ length out.old }
    ensures memory { words memory.new ≡ (makes memory.old.limits item pieces (words memory.old)).left }
    ensures same { Same memory.old memory.new }
    ensures bytes { Said (makes memory.old.limits item pieces (words memory.old)).answer result out.old out.new }
{
    match rules::makes(memory, item, pieces, out) {
        Ok(taken) => taken_length(taken),
        Err(refused) => say(refused, out),
    }
}

// Bytes that are no call, from this place on.
fn unreadable(place: usize) -> Refused
    ensures { refusing result ≡ refused 1 place }
{
    Refused {
        by: Refusal::Unreadable,
        place: place as u64,
    }
}

// Does a call, or turns it away, and writes its answer.
fn answer(memory: &mut Memory<'_>, call: Call<'_>, out: &mut [u8]) -> usize
    requires { answer_need memory.old.limits ≤ length out.old }
    ensures memory { words memory.new ≡ (done memory.old.limits (meant call.entry) (words memory.old)).left }
    ensures same { Same memory.old memory.new }
    ensures bytes { Said (done memory.old.limits (meant call.entry) (words memory.old)).answer result out.old out.new }
{
    match call {
        Call::Buys(item, pieces, price) => say(rules::buys(memory, item, pieces, price), out),
        Call::Sells(item, pieces, price) => say(rules::sells(memory, item, pieces, price), out),
        Call::Comes(order, pieces) => say_comes(
            memory.wide,
            memory.narrow,
            memory.limits,
            order,
            pieces,
            out,
        ),
        Call::Goes(order, pieces) => say_goes(
            memory.wide,
            memory.narrow,
            memory.limits,
            order,
            pieces,
            out,
        ),
        Call::BilledBy(order, pieces, sum) => {
            say(rules::billed_by(memory, order, pieces, sum), out)
        }
        Call::Bills(order, pieces) => say(rules::bills(memory, order, pieces), out),
        Call::PaysOut(amount) => say(rules::pays_out(memory, amount), out),
        Call::PaysIn(amount) => say(rules::pays_in(memory, amount), out),
        Call::MadeOf(item, parts) => say(rules::made_of(memory, item, parts), out),
        Call::Makes(item, pieces) => say_makes(memory, item, pieces, out),
        Call::Counted(item, pieces) => say(rules::counted(memory, item, pieces), out),
        Call::StockOf(item) => say(rules::stock_of(memory.view(), item), out),
        Call::Account(account) => say(rules::account(memory.view(), account), out),
        Call::Order(order) => say(rules::order(memory.view(), order), out),
        Call::LotsOf(item) => say_lots(memory.view(), item, out),
        Call::EntriesFrom(first, count) => say_entries(memory.view(), first, count, out),
    }
}

// Does the call that bytes are, or turns it away, and writes its answer.
fn answer_row(memory: &mut Memory<'_>, row: &[u8], out: &mut [u8]) -> usize
    requires { answer_need memory.old.limits ≤ length out.old }
    ensures memory { words memory.new ≡ (done memory.old.limits (call_of row.now) (words memory.old)).left }
    ensures same { Same memory.old memory.new }
    ensures bytes { Said (done memory.old.limits (call_of row.now) (words memory.old)).answer result out.old out.new }
{
    match wire::read(row) {
        Ok(call) => answer(memory, call, out),
        Err(place) => say(unreadable(place), out),
    }
}

// Whether and not why, as `find_room` of `memory` says, which knows no answer. Limits are good, and memory of so many words and an answer of so many bytes are as large as they ask for.
fn holds(limits: Limits, wide: usize, narrow: usize, out: usize) -> bool
    ensures exact { result ≡ holds limits wide narrow out }
    ensures room { T result → answer_need limits ≤ out }
{
    limits.are_good()
        && limits.wide_need() <= wide
        && limits.narrow_need() <= narrow
        && limits.answer_need() <= out
}

/// Does one call and writes its answer: the answer's length. None, and nothing is done, where the memory or the bytes for the answer
/// are fewer than the limits in the head ask for.
pub fn call(
    wide: &mut [u64],
    narrow: &mut [u32],
    call: &[u8],
    answer_bytes: &mut [u8],
) -> Option<usize>
    ensures does { called_of result (state wide.new narrow.new) answer_bytes.new ≡ called (call_of call.now) (state wide.old narrow.old) answer_bytes.old }
    ensures fits { Fits result answer_bytes.old }
{
    // Asked first: the limits are read then without asking again for each.
    if narrow.len() < LIMITS {
        return None;
    }
    let limits = memory::limits_in(narrow);
    if !holds(limits, wide.len(), narrow.len(), answer_bytes.len()) {
        return None;
    }
    let mut memory = Memory {
        wide,
        narrow,
        limits,
    };
    Some(answer_row(&mut memory, call, answer_bytes))
}
