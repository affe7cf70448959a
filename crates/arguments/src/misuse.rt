//! What can be wrong with the arguments.

ghost use Rattle.std.specs.Prelude.{◌≡◌, Some};
ghost use Rattle.arguments.specs.Options.{misuse_text};
ghost use Rattle.arguments.specs.declared.misuse.Misuse.TheVariants.{OutOfMemory};

use crate::limit::Limit;
use std::alloc::AllocError;
use std::error::Error;
use std::fmt;

/// What is wrong with a word of the arguments, or with their end.
#[derive(Clone, Copy, Debug, PartialEq, Eq)]
pub enum Misuse {
    /// There is no such option.
    NoSuchOption,
    /// There is a file already.
    SecondFile,
    /// There is a journal already.
    SecondJournal,
    /// It is no number that this limit can have.
    NotANumber(Limit),
    /// The number of this limit is missing.
    NumberMissing(Limit),
    /// The name of the journal is missing.
    JournalMissing,
    /// There is not enough memory for the file's name.
    OutOfMemory,
}

impl fmt::Display for Misuse {
    ghost output = { λ misuse. Some (misuse_text misuse) };

    fn fmt<W: fmt::Write>(&self, f: &mut fmt::Formatter<W>) -> fmt::Result {
        match self {
            Misuse::NoSuchOption => write!(f, "no such option"),
            Misuse::SecondFile => write!(f, "a second file"),
            Misuse::SecondJournal => write!(f, "a second journal"),
            Misuse::NotANumber(limit) => write!(f, "not a number from 0 to {}", limit.most()),
            Misuse::NumberMissing(limit) => write!(f, "{limit}: a number is missing"),
            Misuse::JournalMissing => write!(f, "--journal: a file is missing"),
            Misuse::OutOfMemory => write!(f, "not enough memory"),
        }
    }
}

impl Error for Misuse {}

impl From<AllocError> for Misuse {
    ghost from_gives = { λ _ misuse. misuse ≡ OutOfMemory };

    fn from(_e: AllocError) -> Misuse {
        Misuse::OutOfMemory
    }
}
