//! Why books do not start again from a journal.

ghost use Rattle.std.specs.Prelude.{◌≡◌, Some};
ghost use Rattle.session.specs.declared.error.RunError.TheVariants.{OutOfMemory};
ghost use Rattle.journal.specs.Errors.{error_text};
ghost use Rattle.journal.specs.declared.error.ReplayError.TheVariants.{Run};

use std::alloc::AllocError;
use std::error::Error;
use std::fmt;
use text::RunError;
use wire::Refusal;

/// Why a journal gives no books.
#[derive(Clone, Copy, PartialEq, Eq, Debug)]
pub enum ReplayError {
    /// The call of a line, which has this number, is turned away, at a place.
    Turned(u64, Refusal, u64),
    /// The books are not opened, or memory runs out.
    Run(RunError),
}

impl From<RunError> for ReplayError {
    ghost from_gives = { λ e error. error ≡ Run e };

    fn from(e: RunError) -> ReplayError {
        ReplayError::Run(e)
    }
}

impl From<AllocError> for ReplayError {
    ghost from_gives = { λ _ error. error ≡ Run OutOfMemory };

    fn from(e: AllocError) -> ReplayError {
        ReplayError::Run(RunError::from(e))
    }
}

impl fmt::Display for ReplayError {
    ghost output = { λ error. Some (error_text error) };

    fn fmt<W: fmt::Write>(&self, f: &mut fmt::Formatter<W>) -> fmt::Result {
        match self {
            ReplayError::Turned(number, refusal, place) => {
                let refused = u64::from(*refusal);
                write!(f, "line {number}: refused {refused} at {place}: {refusal}")
            }
            ReplayError::Run(e) => write!(f, "{e}"),
        }
    }
}

impl Error for ReplayError {}
