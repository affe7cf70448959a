ghost use Rattle.std.specs.Prelude.{◌≡◌, nat_lt};
ghost use Rattle.wire.specs.Numbers.{Numbered};
ghost use Rattle.wire.specs.Told.{answer_number};

use crate::UnknownNumber;

/// The answers, in the order of their first bytes.
#[derive(Clone, Copy, PartialEq, Eq, Debug)]
pub enum AnswerKind {
    Refused,
    Number,
    Two,
    Lots,
    Entries,
}

impl From<AnswerKind> for u8 {
    ghost from_gives = { λ kind n. n ≡ answer_number kind };

    fn from(kind: AnswerKind) -> u8 {
        kind as u8
    }
}

impl TryFrom<u8> for AnswerKind {
    type Error = UnknownNumber;

    ghost try_from_gives = { λ n r. Numbered answer_number (nat_lt n 5) n r };

    fn try_from(number: u8) -> Result<AnswerKind, UnknownNumber> {
        match number {
            0 => Ok(AnswerKind::Refused),
            1 => Ok(AnswerKind::Number),
            2 => Ok(AnswerKind::Two),
            3 => Ok(AnswerKind::Lots),
            4 => Ok(AnswerKind::Entries),
            _ => Err(UnknownNumber),
        }
    }
}
