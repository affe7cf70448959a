//! A program's run on books that last in a journal.

use crate::asking::request;
use crate::failure::Failure;
use crate::journal_file::Opened;
use crate::keeper::Keeper;
use crate::lock::Lock;
use crate::program::{Program, write};
use crate::trouble::Trouble;
use crate::typing::keep_input;
use journal::replay;
use layout::Limits;
use std::alloc::Global;
use std::fs;
use text::RunError;

/// What a program is to do with a journal: go on with a file of calls, or with standard input, or report.
#[derive(Drop)]
pub struct Kept<'a> {
    pub program: Program,
    pub journal: &'a str,
    pub calls: Option<String>,
}

impl Kept<'_> {
    fn failure(&self, rt: &HostRuntime, trouble: Trouble) -> Failure {
        Failure::of_journal(rt.alloc(), self.journal, trouble)
    }

    // The journal: a new one is made for books of these limits, unless it is only to be read.
    fn open(&self, rt: &HostRuntime, limits: Limits) -> Result<Opened, Failure> {
        let opened = if self.program.by_line {
            Opened::open(rt, self.journal, limits)
        } else {
            Opened::read(rt, self.journal)
        };
        let opened = opened.map_err(|trouble| self.failure(rt, trouble))?;
        if request(rt, opened.limits)?.limits != opened.limits {
            return Err(self.failure(rt, Trouble::OtherLimits));
        }
        Ok(opened)
    }

    // Says that a torn end is left out, once the journal is known to be taken without it.
    fn tell_torn(&self, rt: &HostRuntime, torn: usize) {
        if torn > 0 {
            let (name, journal) = (self.program.name, self.journal);
            let _ = eprintln!(rt;
                "{name}: {journal}: the last line was not finished: its {torn} bytes are left out"
            );
        }
    }

    // Prints what the books come to, once all of the journal is known to be taken.
    fn report<F>(&self, rt: &HostRuntime, opened: Opened, work: F) -> Result<(), Failure>
    where
        F: FnOnce(Global, Limits, &[u8]) -> Result<Vec<u8>, RunError>,
        requires { F.IsAlwaysCallable work }
    {
        if self.calls.is_some() {
            return Err(self.failure(rt, Trouble::CallsToo));
        }
        let lines = opened.lines.as_slice();
        if let Err(e) = replay(rt.alloc(), opened.limits, lines) {
            return Err(self.failure(rt, Trouble::Stopped(e)));
        }
        self.tell_torn(rt, opened.torn);
        write(rt, work(rt.alloc(), opened.limits, lines)?)
    }

    // Goes on with the calls of a file, or of standard input.
    fn go_on(self, rt: &HostRuntime, opened: Opened) -> Result<(), Failure> {
        let torn = opened.torn;
        let restarted = Keeper::restart(rt.alloc(), opened);
        let mut keeper = restarted.map_err(|trouble| self.failure(rt, trouble))?;
        self.tell_torn(rt, torn);
        let Kept { journal, calls, .. } = self;
        let Some(calls) = calls else {
            return keep_input(rt, &mut keeper, journal);
        };
        let text = fs::read(rt, calls.as_str()).map_err(|e| Failure::File(calls, e))?;
        let answer = keeper.answer(rt.alloc(), text.as_slice());
        let failure = |trouble| Failure::of_journal(rt.alloc(), journal, trouble);
        write(rt, answer.map_err(failure)?)
    }

    fn answer_alone<F>(self, rt: &HostRuntime, limits: Limits, work: F) -> Result<(), Failure>
    where
        F: FnOnce(Global, Limits, &[u8]) -> Result<Vec<u8>, RunError>,
        requires { F.IsAlwaysCallable work }
    {
        let opened = self.open(rt, limits)?;
        if self.program.by_line {
            self.go_on(rt, opened)
        } else {
            self.report(rt, opened, work)
        }
    }

    /// Does it, while no other program has the journal.
    pub fn answer<F>(self, rt: &HostRuntime, limits: Limits, work: F) -> Result<(), Failure>
    where
        F: FnOnce(Global, Limits, &[u8]) -> Result<Vec<u8>, RunError>,
        requires { F.IsAlwaysCallable work }
    {
        let journal = self.journal;
        let lock = Lock::take(rt, journal).map_err(|trouble| self.failure(rt, trouble))?;
        let answered = self.answer_alone(rt, limits, work);
        let released = lock.release(rt).map_err(|trouble| Failure::of_journal(
            rt.alloc(),
            journal,
            trouble,
        ));
        answered?;
        released
    }
}
