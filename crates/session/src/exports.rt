//! What the functions for C and other languages do: numbers and slices in, one signed number out. The crate session_c exports them.

ghost use Rattle.std.specs.Prelude.{◌≡◌};
ghost use Rattle.layout.specs.Layout.{wide_need, narrow_need, answer_need};
ghost use Rattle.records.specs.State.{state};
ghost use Rattle.session.specs.Boundary.{limits_read, asked};
ghost use Rattle.session.specs.Calling.{called};
ghost use Rattle.session.specs.Opening.{opened_by, opening_number, call_number};
ghost use Rattle.wire.specs.Calls.{call_of};

use crate::boundary::limits_from;
use crate::opening::open;
use memory::OpenError;

// C is answered numbers: a length or 0, or one of these.
/// What limits out of range return: -(3 * 2^32 + 1).
const OUT_OF_RANGE: i64 = -12884901889;

/// What memory that is too small returns: -(3 * 2^32).
const TOO_SMALL: i64 = -12884901888;

// Three names for C.
/// How many 64-bit words the limits ask for.
pub fn books_wide(limits: &[u64]) -> i64
    ensures { result ≡ asked wide_need (limits_read limits.now) }
{
    limits_from(limits).map_or(OUT_OF_RANGE, |l| l.wide_need() as i64)
}

/// How many 32-bit words the limits ask for.
pub fn books_narrow(limits: &[u64]) -> i64
    ensures { result ≡ asked narrow_need (limits_read limits.now) }
{
    limits_from(limits).map_or(OUT_OF_RANGE, |l| l.narrow_need() as i64)
}

/// How many bytes of answer the limits ask for.
pub fn books_answer(limits: &[u64]) -> i64
    ensures { result ≡ asked answer_need (limits_read limits.now) }
{
    limits_from(limits).map_or(OUT_OF_RANGE, |l| l.answer_need() as i64)
}

/// Opens empty books: 0, or -(3 * 2^32 + 1) for limits out of range, or -(3 * 2^32) for memory that is too small.
pub fn books_open(wide: &mut [u64], narrow: &mut [u32], limits: &[u64]) -> i64
    ensures memory { state wide.new narrow.new ≡ (opened_by (limits_read limits.now) (state wide.old narrow.old)).left }
    ensures number { result ≡ opening_number (opened_by (limits_read limits.now) (state wide.old narrow.old)).came }
{
    match open(wide, narrow, limits) {
        Ok(()) => 0,
        Err(OpenError::LimitsOutOfRange) => OUT_OF_RANGE,
        Err(OpenError::MemoryTooSmall) => TOO_SMALL,
    }
}

/// Does one call and writes its answer: the answer's length, or -(3 * 2^32), and nothing is done, where memory does not suffice.
pub fn books_call(wide: &mut [u64], narrow: &mut [u32], call: &[u8], answer: &mut [u8]) -> i64
    ensures memory { state wide.new narrow.new ≡ (called (call_of call.now) (state wide.old narrow.old) answer.old).left }
    ensures bytes { answer.new ≡ (called (call_of call.now) (state wide.old narrow.old) answer.old).bytes }
    ensures number { result ≡ call_number (called (call_of call.now) (state wide.old narrow.old) answer.old).came }
{
    crate::calling::call(wide, narrow, call, answer).map_or(TOO_SMALL, |length| length as i64)
}
