//! What can be wrong with a journal.

ghost use Rattle.command_line.specs.Failures.{trouble_text};

use journal::ReplayError;
use std::alloc::AllocError;
use std::error::Error;
use std::{fmt, io};
use text::RunError;

/// What is wrong with a journal.
#[derive(Debug, Drop)]
pub enum Trouble {
    /// The system refuses to read or write it.
    System(io::Error),
    /// Another program has it, or had it when it crashed.
    Locked,
    /// It is no journal.
    NoJournal,
    /// Its books have other limits than the options ask for.
    OtherLimits,
    /// It gives no books.
    Stopped(ReplayError),
    /// There are calls beside it, where it is only read.
    CallsToo,
    /// Standard input, output or error is closed, so that its number would be the journal's.
    StreamClosed,
}

impl From<io::Error> for Trouble {
    fn from(e: io::Error) -> Trouble {
        Trouble::System(e)
    }
}

impl From<ReplayError> for Trouble {
    fn from(e: ReplayError) -> Trouble {
        Trouble::Stopped(e)
    }
}

impl From<RunError> for Trouble {
    fn from(e: RunError) -> Trouble {
        Trouble::Stopped(ReplayError::Run(e))
    }
}

impl From<AllocError> for Trouble {
    fn from(e: AllocError) -> Trouble {
        Trouble::from(RunError::from(e))
    }
}

impl fmt::Display for Trouble {
    ghost output = { trouble_text };

    fn fmt<W: fmt::Write>(&self, f: &mut fmt::Formatter<W>) -> fmt::Result {
        match self {
            Trouble::System(e) => write!(f, "{e}"),
            Trouble::Locked => write!(
                f,
                "another program has it; if none has, a crash left its lock: remove the file of this name with .lock behind it"
            ),
            Trouble::NoJournal => write!(f, "no journal: its first line names no limits"),
            Trouble::OtherLimits => write!(
                f,
                "its books have other limits than the options ask for: its first line names them"
            ),
            Trouble::Stopped(e) => write!(f, "{e}"),
            Trouble::CallsToo => write!(f, "a report of a journal takes no calls"),
            Trouble::StreamClosed => write!(f, "standard input, output or error is closed"),
        }
    }
}

impl Error for Trouble {}
