//! Why a program writes nothing.

ghost use Rattle.std.specs.Prelude.{◌≡◌};
ghost use Rattle.command_line.specs.Failures.{failure_text, stopped, FailureOf};
ghost use Rattle.command_line.specs.declared.failure.Failure.TheVariants.{Run};

use crate::trouble::Trouble;
use arguments::Misuse;
use journal::ReplayError;
use std::alloc::Global;
use std::error::Error;
use std::{fmt, io};
use text::{RunError, StreamError};

/// Why a program fails; it is printed as one line.
#[derive(Debug, Drop)]
pub enum Failure {
    /// The arguments cannot be read.
    Arguments(io::Error),
    /// A word of the arguments is wrong.
    Word(String, Misuse),
    /// The arguments end too early.
    End(Misuse),
    /// A file cannot be read.
    File(String, io::Error),
    /// Standard input cannot be read.
    Input(io::Error),
    /// Standard output cannot be written.
    Output(io::Error),
    /// The calls are not answered.
    Run(RunError),
    /// What is wrong with a journal, by its name.
    Journal(String, Trouble),
}

impl From<RunError> for Failure {
    ghost from_gives = { λ e failure. failure ≡ Run e };

    fn from(e: RunError) -> Failure {
        Failure::Run(e)
    }
}

impl From<StreamError> for Failure {
    ghost from_gives = { λ e failure. failure ≡ stopped e };

    fn from(e: StreamError) -> Failure {
        match e {
            StreamError::Input(e) => Failure::Input(e),
            StreamError::Output(e) => Failure::Output(e),
            StreamError::OutOfMemory(e) => Failure::Run(RunError::from(e)),
        }
    }
}

impl Failure {
    /// What is wrong with a journal, by its name; want of memory is no matter of the journal's.
    pub fn of_journal(heap: Global, name: &str, trouble: Trouble) -> Failure
        ensures { FailureOf name.now trouble result }
    {
        if let Trouble::Stopped(ReplayError::Run(e)) = trouble {
            return Failure::Run(e);
        }
        match String::from_str(heap, name) {
            Ok(name) => Failure::Journal(name, trouble),
            Err(e) => Failure::Run(RunError::from(e)),
        }
    }
}

impl fmt::Display for Failure {
    ghost output = { failure_text };

    fn fmt<W: fmt::Write>(&self, f: &mut fmt::Formatter<W>) -> fmt::Result {
        match self {
            Failure::Arguments(e) => write!(f, "arguments: {e}"),
            Failure::Word(word, misuse @ Misuse::NotANumber(limit)) => {
                write!(f, "{limit} {word}: {misuse}")
            }
            Failure::Word(_, misuse @ Misuse::OutOfMemory) | Failure::End(misuse) => {
                write!(f, "{misuse}")
            }
            Failure::Word(word, misuse) => write!(f, "{word}: {misuse}"),
            Failure::File(name, e) => write!(f, "{name}: {e}"),
            Failure::Input(e) => write!(f, "standard input: {e}"),
            Failure::Output(e) => write!(f, "standard output: {e}"),
            Failure::Run(e) => write!(f, "{e}"),
            Failure::Journal(name, trouble) => write!(f, "{name}: {trouble}"),
        }
    }
}

impl Error for Failure {}
