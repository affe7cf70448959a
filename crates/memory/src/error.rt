//! Why books are not opened.

ghost use Rattle.std.specs.Prelude.{Some};
ghost use Rattle.memory.specs.Opened.{error_text};

use std::error::Error;
use std::fmt;

/// Why lent memory is left as it was.
#[derive(Clone, Copy, PartialEq, Eq, Debug)]
pub enum OpenError {
    /// Books cannot have such limits.
    LimitsOutOfRange,
    /// The slices have fewer words than the limits ask for.
    MemoryTooSmall,
}

impl fmt::Display for OpenError {
    ghost output = { λ e. Some (error_text e) };

    fn fmt<W: fmt::Write>(&self, f: &mut fmt::Formatter<W>) -> fmt::Result {
        f.write_str(match self {
            OpenError::LimitsOutOfRange => "limits out of range",
            OpenError::MemoryTooSmall => "memory too small",
        })
    }
}

impl Error for OpenError {}
