//! Why a run fails.

ghost use Rattle.std.specs.Prelude.{◌≡◌, Some};
ghost use Rattle.session.specs.Held.{failure_text};
ghost use Rattle.session.specs.declared.error.RunError.TheVariants.{OutOfMemory};

use std::alloc::AllocError;
use std::error::Error;
use std::fmt;

/// Why calls are not answered.
#[derive(Clone, Copy, PartialEq, Eq, Debug)]
pub enum RunError {
    /// Books cannot be opened with these limits.
    LimitsOutOfRange,
    /// There is not enough memory for the books, or for what is written.
    OutOfMemory,
}

impl fmt::Display for RunError {
    ghost output = { λ e. Some (failure_text e) };

    fn fmt<W: fmt::Write>(&self, f: &mut fmt::Formatter<W>) -> fmt::Result {
        f.write_str(match self {
            RunError::LimitsOutOfRange => "limits out of range",
            RunError::OutOfMemory => "not enough memory",
        })
    }
}

impl Error for RunError {}

impl From<AllocError> for RunError {
    ghost from_gives = { λ _ r. r ≡ OutOfMemory };

    fn from(_e: AllocError) -> RunError {
        RunError::OutOfMemory
    }
}
