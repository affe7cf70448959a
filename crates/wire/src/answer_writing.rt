ghost use Rattle.std.specs.Prelude.{◌≡◌};
ghost use Rattle.fields.specs.Written.{wrote, written, row_written};
ghost use Rattle.firm.specs.Calls.{refused, number, two};
ghost use Rattle.wire.specs.Answers.{bytes_of_answer};
ghost use Rattle.wire.specs.Told.{refusal_number, told, answer_row, if_lines};

use crate::{Answer, AnswerKind, EntryLine, Line, LotLine, Refusal};
use fields::{ONE_FIELD, put_fields};

// A list whose lines are there as bytes.
fn write_lines<L: Line>(lines: &[u8], out: &mut [u8]) -> Option<usize>
    ensures { wrote result out.new ≡ row_written (answer_row (if_lines lines.now (L.answer lines.now))) out.old }
{
    if !L::whole(lines) {
        return None;
    }
    let size = ONE_FIELD + lines.len();
    if out.len() < size {
        return None;
    }
    L::begin(out, L::count(lines) as u64)?;
    out[ONE_FIELD..size].copy_from_slice(lines);
    Some(size)
}

/// Writes a refusal and the place that it names, and answers their length; nothing where they do not fit.
pub fn write_refusal(out: &mut [u8], refusal: Refusal, place: u64) -> Option<usize>
    ensures { wrote result out.new ≡ written (bytes_of_answer (refused (refusal_number refusal) place)) out.old }
{
    put_fields(out, AnswerKind::Refused.into(), [refusal.into(), place])
}

/// Writes an answer of one number, and answers its length; nothing where it does not fit.
pub fn write_number(out: &mut [u8], n: u64) -> Option<usize>
    ensures { wrote result out.new ≡ written (bytes_of_answer (number n)) out.old }
{
    put_fields(out, AnswerKind::Number.into(), [n])
}

/// Writes an answer of two numbers, and answers its length; nothing where it does not fit.
pub fn write_two(out: &mut [u8], a: u64, b: u64) -> Option<usize>
    ensures { wrote result out.new ≡ written (bytes_of_answer (two a b)) out.old }
{
    put_fields(out, AnswerKind::Two.into(), [a, b])
}

/// Writes an answer, and answers its length; nothing where it does not fit, or where a list's bytes are not whole lines.
pub fn write(answer: Answer, out: &mut [u8]) -> Option<usize>
    ensures { wrote result out.new ≡ row_written (answer_row (told answer.entry)) out.old }
{
    match answer {
        Answer::Refused(refusal, place) => write_refusal(out, refusal, place),
        Answer::Number(n) => write_number(out, n),
        Answer::Two(a, b) => write_two(out, a, b),
        Answer::Lots(lines) => write_lines::<LotLine>(lines, out),
        Answer::Entries(lines) => write_lines::<EntryLine>(lines, out),
    }
}
