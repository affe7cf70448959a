ghost use Rattle.std.specs.Prelude.{◌≡◌, ◌+◌, ◌*◌, length, drop, if◌then◌else◌, Some, None, nat_eq};
ghost use Rattle.std.specs.Option.{option_map};
ghost use Rattle.fields.specs.Bytes.{field_at};
ghost use Rattle.wire.specs.Answers.{answer_as, answer_of};
ghost use Rattle.wire.specs.Told.{answered, answer_number};

use crate::{Answer, AnswerKind, EntryLine, Line, LotLine, Refusal};
use fields::{ONE_FIELD, fields, first_field};

// The bytes behind a count, if they are so many lines.
fn lines_of<L: Line>(bytes: &[u8]) -> Option<&[u8]>
    ensures { option_map (λ x. x.now) result ≡ (if nat_eq (length bytes.now) (9 + 32 * field_at 1 bytes.now) then Some (drop 9 bytes.now) else None) }
{
    let count = first_field(bytes).ok()?;
    let lines = &bytes[ONE_FIELD..];
    if !L::whole(lines) {
        return None;
    }
    if L::count(lines) as u64 != count {
        return None;
    }
    Some(lines)
}

fn read_answer_as(kind: AnswerKind, bytes: &[u8]) -> Option<Answer<'_>>
    ensures { answered result ≡ answer_as (answer_number kind) bytes.now }
{
    match kind {
        AnswerKind::Refused => {
            let [number, place] = fields::<2>(bytes).ok()?;
            let refusal = Refusal::try_from(number).ok()?;
            Some(Answer::Refused(refusal, place))
        }
        AnswerKind::Number => {
            let [n] = fields::<1>(bytes).ok()?;
            Some(Answer::Number(n))
        }
        AnswerKind::Two => {
            let [a, b] = fields::<2>(bytes).ok()?;
            Some(Answer::Two(a, b))
        }
        AnswerKind::Lots => {
            let lines = lines_of::<LotLine>(bytes)?;
            Some(Answer::Lots(lines))
        }
        AnswerKind::Entries => {
            let lines = lines_of::<EntryLine>(bytes)?;
            Some(Answer::Entries(lines))
        }
    }
}

/// The answer that a row of bytes is, if it is one.
pub fn read_answer(bytes: &[u8]) -> Option<Answer<'_>>
    ensures { answered result ≡ answer_of bytes.now }
{
    let number = bytes.first()?;
    let kind = AnswerKind::try_from(*number).ok()?;
    read_answer_as(kind, bytes)
}
