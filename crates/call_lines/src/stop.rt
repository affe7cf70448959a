//! Why reading a line stops.

ghost use Rattle.std.specs.Prelude.{◌≡◌};
ghost use Rattle.call_lines.specs.declared.stop.Stop.TheVariants.{At, OutOfMemory};

use std::alloc::{AllocError, AllocFailed};

/// Why a reader gives nothing.
#[derive(Clone, Copy, PartialEq, Eq, Debug)]
pub enum Stop<'a> {
    /// What is left of the line from the word that does not fit on.
    At(&'a [u8]),
    /// There is not enough memory for what was read.
    OutOfMemory(AllocError),
}

impl<'a> From<&'a [u8]> for Stop<'a> {
    ghost from_gives = { λ rest s. s ≡ At rest };

    fn from(rest: &'a [u8]) -> Stop<'a> {
        Stop::At(rest)
    }
}

impl<'a> From<AllocError> for Stop<'a> {
    ghost from_gives = { λ e s. s ≡ OutOfMemory e };

    fn from(e: AllocError) -> Stop<'a> {
        Stop::OutOfMemory(e)
    }
}

impl<'a, T: Drop> From<AllocFailed<T>> for Stop<'a> {
    ghost from_gives = { λ _ s. (e : _) × (s ≡ OutOfMemory e) };

    fn from(e: AllocFailed<T>) -> Stop<'a> {
        Stop::OutOfMemory(e.into())
    }
}
