ghost use Rattle.std.specs.Prelude.{◌≡◌, Some};
ghost use Rattle.wire.specs.Answers.{is_refusal};
ghost use Rattle.wire.specs.Numbers.{Numbered};
ghost use Rattle.wire.specs.Refusals.{refusal_text};
ghost use Rattle.wire.specs.Told.{refusal_number};

use crate::UnknownNumber;
use std::error::Error;
use std::fmt;

/// Why a call is turned away, by its number. Later ones come at the end.
#[derive(Clone, Copy, PartialEq, Eq, Debug)]
pub enum Refusal {
    /// Bytes that are no call.
    Unreadable = 1,
    /// A field out of its range, or a call that is not done.
    BadField,
    /// Too little memory to open with.
    NoRoom,
    /// No such order.
    NoSuchOrder,
    /// An order of the other kind.
    OtherKind,
    /// More than was ordered, moved or is owed.
    TooMany,
    /// Not enough on hand.
    NotOnHand,
    /// No recipe.
    NoRecipe,
    /// More than the limits afterwards.
    OverLimits,
}

impl From<Refusal> for u64 {
    ghost from_gives = { λ refusal n. n ≡ refusal_number refusal };

    fn from(refusal: Refusal) -> u64 {
        refusal as u64
    }
}

impl TryFrom<u64> for Refusal {
    type Error = UnknownNumber;

    ghost try_from_gives = { λ n r. Numbered refusal_number (is_refusal n) n r };

    fn try_from(number: u64) -> Result<Refusal, UnknownNumber> {
        match number {
            1 => Ok(Refusal::Unreadable),
            2 => Ok(Refusal::BadField),
            3 => Ok(Refusal::NoRoom),
            4 => Ok(Refusal::NoSuchOrder),
            5 => Ok(Refusal::OtherKind),
            6 => Ok(Refusal::TooMany),
            7 => Ok(Refusal::NotOnHand),
            8 => Ok(Refusal::NoRecipe),
            9 => Ok(Refusal::OverLimits),
            _ => Err(UnknownNumber),
        }
    }
}

impl fmt::Display for Refusal {
    ghost output = { λ refusal. Some (refusal_text refusal) };

    fn fmt<W: fmt::Write>(&self, f: &mut fmt::Formatter<W>) -> fmt::Result {
        f.write_str(match self {
            Refusal::Unreadable => "no call",
            Refusal::BadField => "out of range, or not done",
            Refusal::NoRoom => "too little memory",
            Refusal::NoSuchOrder => "no such order",
            Refusal::OtherKind => "an order of the other kind",
            Refusal::TooMany => "more than was ordered, moved or is owed",
            Refusal::NotOnHand => "not enough on hand",
            Refusal::NoRecipe => "no recipe",
            Refusal::OverLimits => "over the limits",
        })
    }
}

impl Error for Refusal {}
