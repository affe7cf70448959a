//! The functions of the books for C and other languages, as a static library. Each calls the function of its name in `session`
//! and says its clauses again.

#![tactic(auto)]

ghost use Rattle.std.specs.Prelude.{◌≡◌};
ghost use Rattle.layout.specs.Layout.{wide_need, narrow_need, answer_need};
ghost use Rattle.records.specs.State.{state};
ghost use Rattle.session.specs.Boundary.{limits_read, asked};
ghost use Rattle.session.specs.Calling.{called};
ghost use Rattle.session.specs.Opening.{opened_by, opening_number, call_number};
ghost use Rattle.wire.specs.Calls.{call_of};

/// How many 64-bit words the limits ask for.
#[unsafe(no_mangle)]
pub extern "C" fn books_wide(limits: &[u64]) -> i64
    ensures { result ≡ asked wide_need (limits_read limits.now) }
{
    session::books_wide(limits)
}

/// How many 32-bit words the limits ask for.
#[unsafe(no_mangle)]
pub extern "C" fn books_narrow(limits: &[u64]) -> i64
    ensures { result ≡ asked narrow_need (limits_read limits.now) }
{
    session::books_narrow(limits)
}

/// How many bytes of answer the limits ask for.
#[unsafe(no_mangle)]
pub extern "C" fn books_answer(limits: &[u64]) -> i64
    ensures { result ≡ asked answer_need (limits_read limits.now) }
{
    session::books_answer(limits)
}

/// Opens empty books: 0, or -(3 * 2^32 + 1) for limits out of range, or -(3 * 2^32) for memory that is too small.
#[unsafe(no_mangle)]
pub extern "C" fn books_open(wide: &mut [u64], narrow: &mut [u32], limits: &[u64]) -> i64
    ensures memory { state wide.new narrow.new ≡ (opened_by (limits_read limits.now) (state wide.old narrow.old)).left }
    ensures number { result ≡ opening_number (opened_by (limits_read limits.now) (state wide.old narrow.old)).came }
{
    session::books_open(wide, narrow, limits)
}

/// Does one call and writes its answer: the answer's length, or -(3 * 2^32), and nothing is done, where memory does not suffice.
#[unsafe(no_mangle)]
pub extern "C" fn books_call(
    wide: &mut [u64],
    narrow: &mut [u32],
    call: &[u8],
    answer: &mut [u8],
) -> i64
    ensures memory { state wide.new narrow.new ≡ (called (call_of call.now) (state wide.old narrow.old) answer.old).left }
    ensures bytes { answer.new ≡ (called (call_of call.now) (state wide.old narrow.old) answer.old).bytes }
    ensures number { result ≡ call_number (called (call_of call.now) (state wide.old narrow.old) answer.old).came }
{
    session::books_call(wide, narrow, call, answer)
}
