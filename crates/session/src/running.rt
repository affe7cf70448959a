//! A whole run, from bytes to bytes.

ghost use Rattle.std.specs.Prelude.{◌≡◌, MatchResult, OnOk};
ghost use Rattle.session.specs.Boundary.{limits_read};
ghost use Rattle.session.specs.Held.{words_of, room_of};
ghost use Rattle.session.specs.Running.{row_done, row_answered, failure, RanOf};

use crate::boundary::limits_from;
use crate::error::RunError;
use crate::held::Held;
use crate::rows::{Rows, put_row};
use std::alloc::{AllocError, Global};

// Does the call of one row, and appends its answer as a row.
fn answer_row(held: &mut Held, row: &[u8], out: &mut Vec<u8>) -> Result<(), AllocError>
    ensures done { OnOk result (row_done (words_of held.new) held.new.answer.items out.new.items ≡ row_answered row.now (words_of held.old) held.old.answer.items out.old.items) }
    ensures room { OnOk result (room_of held.new ≡ room_of held.old) }
{
    if let Some(answer) = held.call(row) {
        put_row(out, answer)?;
    }
    Ok(())
}

/// What new books of these limits answer to a list of calls, each call and each answer behind its length.
pub fn run(heap: Global, limits: &[u64], calls: &[u8]) -> Result<Vec<u8>, RunError>
    ensures { MatchResult result (λ v. RanOf (limits_read limits.now) calls.now v.items) (λ e. e ≡ failure (limits_read limits.now)) }
{
    let limits = limits_from(limits).ok_or(RunError::LimitsOutOfRange)?;
    let mut held = Held::open(heap, limits)?;
    let mut out = Vec::new(heap);
    for row in Rows::of(calls) {
        answer_row(&mut held, row, &mut out)?;
    }
    Ok(out)
}
