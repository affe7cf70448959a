//! Why bytes are not shown.

ghost use Rattle.std.specs.Prelude.{◌≡◌, Some};
ghost use Rattle.answer_lines.specs.Showings.{error_text};
ghost use Rattle.answer_lines.specs.declared.error.ShowError.TheVariants.{OutOfMemory};

use std::alloc::AllocError;
use std::error::Error;
use std::fmt;

/// Why bytes are not shown as an answer.
#[derive(Clone, Copy, PartialEq, Eq, Debug)]
pub enum ShowError {
    /// They are no answer's.
    NoAnswer,
    /// There is not enough memory for the text.
    OutOfMemory(AllocError),
}

impl fmt::Display for ShowError {
    ghost output = { λ e. Some (error_text e) };

    fn fmt<W: fmt::Write>(&self, f: &mut fmt::Formatter<W>) -> fmt::Result {
        match self {
            ShowError::NoAnswer => write!(f, "no answer"),
            ShowError::OutOfMemory(_) => write!(f, "out of memory"),
        }
    }
}

impl Error for ShowError {}

impl From<AllocError> for ShowError {
    ghost from_gives = { λ e s. s ≡ OutOfMemory e };

    fn from(e: AllocError) -> Self {
        Self::OutOfMemory(e)
    }
}
