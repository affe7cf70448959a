//! Why nothing is kept or taken.

ghost use Rattle.std.specs.Prelude.{Some};
ghost use Rattle.store.specs.Refusals.{refusal_text};

use std::error::Error;
use std::fmt;

/// Why nothing was kept or taken.
#[derive(Clone, Copy, PartialEq, Eq, Debug)]
pub enum Refusal {
    NoSuchItem,
    NoSuchAccount,
    NoSuchOrder,
    NoLot,
    Full,
}

impl fmt::Display for Refusal {
    ghost output = { λ refusal. Some (refusal_text refusal) };

    fn fmt<W: fmt::Write>(&self, f: &mut fmt::Formatter<W>) -> fmt::Result {
        f.write_str(match self {
            Refusal::NoSuchItem => "no such item",
            Refusal::NoSuchAccount => "no such account",
            Refusal::NoSuchOrder => "no such order",
            Refusal::NoLot => "no lot",
            Refusal::Full => "full",
        })
    }
}

impl Error for Refusal {}
