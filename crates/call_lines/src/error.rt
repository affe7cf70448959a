//! Why a line is not read.

ghost use Rattle.std.specs.Prelude.{Some};
ghost use Rattle.call_lines.specs.Readings.{error_text};

use std::alloc::AllocError;
use std::error::Error;
use std::fmt;

/// Why a line leaves no call.
#[derive(Clone, Copy, PartialEq, Eq, Debug)]
pub enum LineError {
    /// It is no call: the offset of the first word that does not fit, or the line's length where a word is missing.
    Misfit(usize),
    /// There is not enough memory for the call's bytes.
    OutOfMemory(AllocError),
}

impl fmt::Display for LineError {
    ghost output = { λ e. Some (error_text e) };

    fn fmt<W: fmt::Write>(&self, f: &mut fmt::Formatter<W>) -> fmt::Result {
        match self {
            LineError::Misfit(place) => write!(f, "no call from byte {place} on"),
            LineError::OutOfMemory(_) => write!(f, "out of memory"),
        }
    }
}

impl Error for LineError {}
