//! An answer's bytes as a line of text.

ghost use Rattle.std.specs.Prelude.{◌≡◌, ◌++◌, OnOk};
ghost use Rattle.wire.specs.Answers.{answer_of};
ghost use Rattle.wire.specs.Told.{refusal_number, told};
ghost use Rattle.answer_lines.specs.Shown.{shown_refusal};
ghost use Rattle.answer_lines.specs.Showings.{lines_shown, lines_showing, shown_if, showing_of, OnMemory, AnswersShown};

use crate::error::ShowError;
use crate::quads::put_quads;
use std::alloc::AllocError;
use wire::{Answer, EntryLine, Line, LotLine, Refusal, read_answer};
use words::{put_number, put_numbers};

/// Appends the text of a refusal: which one, and the place that it names.
pub fn put_refusal(out: &mut Vec<u8>, refusal: Refusal, place: u64) -> Result<(), AllocError>
    ensures { OnOk result (out.new.items ≡ out.old.items ++ shown_refusal (refusal_number refusal) place) }
{
    out.extend_from_slice(b"refused ")?;
    put_number(out, refusal.into())?;
    out.extend_from_slice(b" at ")?;
    put_number(out, place)?;
    Ok(())
}

// Appends the lines of a list; nothing where they are not whole.
fn put_lines<L: Line>(out: &mut Vec<u8>, lines: &[u8]) -> Result<(), ShowError>
    ensures showing { OnMemory result (result ≡ lines_showing lines.now) }
    ensures text { OnMemory result (out.new.items ≡ out.old.items ++ lines_shown lines.now) }
{
    if !L::whole(lines) {
        return Err(ShowError::NoAnswer);
    }
    put_quads(out, lines)?;
    Ok(())
}

#[tactic(auto, using(crate::proofs::QuadSteps::spaced_two), unfolding(crate::specs::Shown::shown))]
fn put_answer(out: &mut Vec<u8>, answer: Answer<'_>) -> Result<(), ShowError>
    ensures showing { OnMemory result (result ≡ showing_of (told answer.entry)) }
    ensures text { OnMemory result (out.new.items ≡ out.old.items ++ shown_if (told answer.entry)) }
{
    match answer {
        Answer::Refused(refusal, place) => put_refusal(out, refusal, place)?,
        Answer::Number(n) => put_number(out, n)?,
        Answer::Two(a, b) => put_numbers(out, &[a, b])?,
        Answer::Lots(lines) => put_lines::<LotLine>(out, lines)?,
        Answer::Entries(lines) => put_lines::<EntryLine>(out, lines)?,
    }
    Ok(())
}

// Not `Display` of a wrapper: the text goes into bytes, not into a `String`, and some answers have none.
/// Appends the text of the answer whose bytes these are. Of bytes that are no answer's it appends nothing, and says so. `OutOfMemory` only for want of
/// memory.
pub fn show_answer(out: &mut Vec<u8>, answer: &[u8]) -> Result<(), ShowError>
    ensures showing { OnMemory result (result ≡ showing_of (answer_of answer.now)) }
    ensures text { OnMemory result (out.new.items ≡ out.old.items ++ shown_if (answer_of answer.now)) }
{
    let answer = read_answer(answer).ok_or(ShowError::NoAnswer)?;
    put_answer(out, answer)
}

/// Every answer that bytes can carry is shown from its bytes.
pub fn answers_shown_stands()
    ensures { AnswersShown }
{}
