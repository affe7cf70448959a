ghost use Rattle.std.specs.Prelude.{Some};
ghost use Rattle.wire.specs.Refusals.{unknown_text};

use std::error::Error;
use std::fmt;

/// A number that stands for nothing.
#[derive(Clone, Copy, PartialEq, Eq, Debug)]
pub struct UnknownNumber;

impl fmt::Display for UnknownNumber {
    ghost output = { λ _. Some unknown_text };

    fn fmt<W: fmt::Write>(&self, f: &mut fmt::Formatter<W>) -> fmt::Result {
        f.write_str("a number that stands for nothing")
    }
}

impl Error for UnknownNumber {}
