ghost use Rattle.std.specs.Prelude.{◌≡◌, nat_lt};
ghost use Rattle.wire.specs.Numbers.{Numbered};
ghost use Rattle.wire.specs.Said.{kind_number};

use crate::UnknownNumber;

/// The calls, in the order of their numbers.
#[derive(Clone, Copy, PartialEq, Eq, Debug)]
pub enum CallKind {
    Buys,
    Sells,
    Comes,
    Goes,
    BilledBy,
    Bills,
    PaysOut,
    PaysIn,
    MadeOf,
    Makes,
    Counted,
    StockOf,
    Account,
    Order,
    LotsOf,
    EntriesFrom,
}

impl From<CallKind> for u8 {
    ghost from_gives = { λ kind n. n ≡ kind_number kind };

    fn from(kind: CallKind) -> u8 {
        kind as u8
    }
}

impl TryFrom<u8> for CallKind {
    type Error = UnknownNumber;

    ghost try_from_gives = { λ n r. Numbered kind_number (nat_lt n 16) n r };

    // Adding a call adds an arm.
    fn try_from(number: u8) -> Result<CallKind, UnknownNumber> {
        match number {
            0 => Ok(CallKind::Buys),
            1 => Ok(CallKind::Sells),
            2 => Ok(CallKind::Comes),
            3 => Ok(CallKind::Goes),
            4 => Ok(CallKind::BilledBy),
            5 => Ok(CallKind::Bills),
            6 => Ok(CallKind::PaysOut),
            7 => Ok(CallKind::PaysIn),
            8 => Ok(CallKind::MadeOf),
            9 => Ok(CallKind::Makes),
            10 => Ok(CallKind::Counted),
            11 => Ok(CallKind::StockOf),
            12 => Ok(CallKind::Account),
            13 => Ok(CallKind::Order),
            14 => Ok(CallKind::LotsOf),
            15 => Ok(CallKind::EntriesFrom),
            _ => Err(UnknownNumber),
        }
    }
}
