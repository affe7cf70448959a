//! What becomes of a line.

ghost use Rattle.wire.specs.Answers.{answer_of};
ghost use Rattle.text.specs.Fates.{Tells};

use wire::{Answer, Refusal, read_answer};

/// What became of a line: it is no call, as it is blank or a remark; or its call was turned away, at a place; or it was taken.
#[derive(Clone, Copy, PartialEq, Eq, Debug)]
pub enum Fate {
    Quiet,
    Refused(Refusal, u64),
    Taken,
}

/// What became of a call, by the bytes of its answer.
pub fn fate_told(answer: &[u8]) -> Fate
    ensures { Tells result (answer_of answer.now) }
{
    match read_answer(answer) {
        Some(Answer::Refused(refusal, place)) => Fate::Refused(refusal, place),
        _ => Fate::Taken,
    }
}
