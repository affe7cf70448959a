//! How many calls were taken and how many turned away, by refusal.

ghost use Rattle.std.specs.Prelude.{◌≡◌, cond, length};
ghost use Rattle.wire.specs.Answers.{answer_of};
ghost use Rattle.wire.specs.Told.{refusal_number, told};
ghost use Rattle.text.specs.Tallies.{no_tally, with_taken, with_refused, with_lines, noted_if};

use wire::{Answer, EntryLine, Line, LotLine, Refusal, read_answer};

// A place for each number and not a map by refusal: a report names refusals by number.
/// Refusals have the numbers below this.
pub const REFUSALS: usize = 10;

/// How many calls were taken, how many were turned away, and how many of these by each refusal. A count stops at the largest number.
#[derive(Clone, Copy, PartialEq, Eq, Debug)]
pub struct Tally {
    pub taken: u64,
    pub turned: u64,
    pub by: [u64; REFUSALS],
}

impl Tally {
    /// No call yet.
    pub fn new() -> Tally
        ensures { result ≡ no_tally }
    {
        Tally {
            taken: 0,
            turned: 0,
            by: [0; REFUSALS],
        }
    }

    fn take(&mut self)
        ensures { self.new ≡ with_taken self.old }
    {
        self.taken = self.taken.saturating_add(1);
    }

    // A list was answered, if its lines are whole.
    fn take_lines<L: Line>(&mut self, lines: &[u8])
        ensures { self.new ≡ with_lines lines.now self.old }
    {
        if L::whole(lines) {
            self.take();
        }
    }

    pub(crate) fn refuse(&mut self, refusal: Refusal)
        ensures { self.new ≡ with_refused (refusal_number refusal) self.old }
    {
        self.turned = self.turned.saturating_add(1);
        let k = refusal as usize;
        self.by[k] = self.by[k].saturating_add(1);
    }

    fn note_read(&mut self, answer: Answer<'_>)
        ensures { self.new ≡ noted_if (told answer.entry) self.old }
    {
        match answer {
            Answer::Refused(refusal, _) => self.refuse(refusal),
            Answer::Number(_) | Answer::Two(_, _) => self.take(),
            Answer::Lots(lines) => self.take_lines::<LotLine>(lines),
            Answer::Entries(lines) => self.take_lines::<EntryLine>(lines),
        }
    }

    /// Counts a call by the bytes of its answer. Bytes that are no answer's count for nothing.
    pub fn note(&mut self, answer: &[u8])
        ensures { self.new ≡ noted_if (answer_of answer.now) self.old }
    {
        if let Some(read) = read_answer(answer) {
            self.note_read(read);
        }
    }
}
