//! A program's run, from its arguments to what it writes.

ghost use Rattle.std.specs.Prelude.{◌≡◌, ◌⊎◌};

use crate::asking::request;
use crate::failure::Failure;
use crate::kept::Kept;
use crate::typing::answer_input;
use arguments::{Request, usual_limits};
use layout::Limits;
use std::alloc::Global;
use std::io::{Read, Write};
use std::process::ExitCode;
use std::{fs, io};
use text::{Books, RunError};

const OPTIONS: &str =
    "[--items N] [--orders N] [--lots N] [--parts N] [--entries N] [--journal FILE] [CALLS]";

const WHAT_OPTIONS_DO: &str = "  --items N       how many items there can be (32; at most 4096)
  --orders N      how many orders (64; at most 65536)
  --lots N        how many lots (128; at most 65536)
  --parts N       how many parts of recipes, and a recipe counts one more (32; at most 65536)
  --entries N     how many entries (256; at most 1000000)
  --journal FILE  the books last in FILE, with the limits that they were opened with, and go on where they were
  --help          says this
";

/// A program that makes one text of another, a file of calls, on books as wide as it is asked for; or goes on with books that last in a journal.
#[derive(Clone, Copy, PartialEq, Eq, Debug)]
pub struct Program {
    pub name: &'static str,
    /// What it does, as its help says.
    pub does: &'static str,
    /// Whether standard input is answered a line at a time, as it comes.
    pub by_line: bool,
}

// The text of a file, or of standard input where there is none.
fn input(rt: &HostRuntime, file: Option<String>) -> Result<Vec<u8>, Failure> {
    if let Some(name) = file {
        return fs::read(rt, name.as_str()).map_err(|e| Failure::File(name, e));
    }
    let mut text = Vec::new(rt.alloc());
    rt.stdin().read_to_end(&mut text).map_err(Failure::Input)?;
    Ok(text)
}

/// Writes what a program answers.
pub fn write(rt: &HostRuntime, answer: Vec<u8>) -> Result<(), Failure> {
    rt.stdout()
        .write_all(answer.as_slice())
        .map_err(Failure::Output)
}

impl Program {
    fn help(self, rt: &HostRuntime) -> io::Result<()> {
        let Program { name, does, .. } = self;
        print!(rt; "usage: {name} {OPTIONS}\n\n{does}\n\n{WHAT_OPTIONS_DO}")
    }

    fn answer<F>(self, rt: &HostRuntime, work: F) -> Result<(), Failure>
    where
        F: FnOnce(Global, Limits, &[u8]) -> Result<Vec<u8>, RunError>,
        requires { F.IsAlwaysCallable work }
    {
        let Request {
            limits,
            file,
            journal,
            help,
            ..
        } = request(rt, usual_limits())?;
        if help {
            return self.help(rt).map_err(Failure::Output);
        }
        if let Some(journal) = journal {
            let kept = Kept {
                program: self,
                journal: journal.as_str(),
                calls: file,
            };
            return kept.answer(rt, limits, work);
        }
        if self.by_line && file.is_none() {
            let mut books = Books::open(rt.alloc(), limits)?;
            return answer_input(rt, &mut books);
        }
        let text = input(rt, file)?;
        write(rt, work(rt.alloc(), limits, text.as_slice())?)
    }

    /// Writes what `work` makes of the text that the arguments ask for, or says in one line why not. The status is 0, or else 1.
    pub fn run<F>(self, rt: &HostRuntime, work: F) -> ExitCode
    where
        F: FnOnce(Global, Limits, &[u8]) -> Result<Vec<u8>, RunError>,
        requires { F.IsAlwaysCallable work }
        ensures { (result ≡ ExitCode.SUCCESS) ⊎ (result ≡ ExitCode.FAILURE) }
    {
        match self.answer(rt, work) {
            Ok(()) => ExitCode::SUCCESS,
            Err(failure) => {
                let name = self.name;
                let _ = eprintln!(rt; "{name}: {failure}");
                ExitCode::FAILURE
            }
        }
    }
}
