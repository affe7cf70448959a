//! One line of a text: the call that it is, done, and its answer as a line.

ghost use Rattle.std.specs.Prelude.{◌≡◌, [], ◌∷◌, ◌++◌, IfOk, OnOk};
ghost use Rattle.firm.specs.Calls.{refused};
ghost use Rattle.session.specs.Held.{room_of};
ghost use Rattle.wire.specs.Answers.{answer_of};
ghost use Rattle.answer_lines.specs.Shown.{shown};
ghost use Rattle.answer_lines.specs.Showings.{shown_if};
ghost use Rattle.call_lines.specs.Lines.{call_in_line};
ghost use Rattle.text.specs.Books.{memory_of};
ghost use Rattle.text.specs.Fates.{CallFated, CallsFated, AtHand};
ghost use Rattle.text.specs.Lines.{heard};
ghost use Rattle.text.specs.Noting.{CallNoted, CallsNoted};
ghost use Rattle.text.specs.Run.{calls_in};
ghost use Rattle.text.specs.Standing.{CallDone, CallsDone};
ghost use Rattle.text.specs.Tallies.{noted};

use crate::books::Books;
use crate::fate::{Fate, fate_told};
use crate::lines::{bare, is_quiet};
use crate::tally::Tally;
use answer_lines::{ShowError, put_refusal, show_answer};
use call_lines::{LineError, read_line};
use std::alloc::AllocError;
use wire::Refusal;

// Appends what a line is answered that is no call: where it ceases to be one.
#[tactic(auto, unfolding(answer_lines::specs::Shown::shown))]
fn put_misfit(out: &mut Vec<u8>, place: usize, tally: &mut Tally) -> Result<(), AllocError>
    ensures done { OnOk result (out.new.items ≡ out.old.items ++ shown (refused 1 place)) }
    ensures counted { OnOk result (tally.new ≡ noted tally.old (refused 1 place)) }
{
    put_refusal(out, Refusal::Unreadable, place as u64)?;
    tally.refuse(Refusal::Unreadable);
    Ok(())
}

// Appends the text of an answer, and nothing of bytes that are none.
fn put_answer(out: &mut Vec<u8>, answer: &[u8]) -> Result<(), AllocError>
    ensures { OnOk result (out.new.items ≡ out.old.items ++ shown_if (answer_of answer.now)) }
{
    match show_answer(out, answer) {
        Ok(()) | Err(ShowError::NoAnswer) => Ok(()),
        Err(ShowError::OutOfMemory(e)) => Err(e),
    }
}

impl Books {
    // Does the call at hand, appends its answer, and gives what became of it. Opened memory always has an answer.
    fn answer_call(&mut self, out: &mut Vec<u8>) -> Result<Fate, AllocError>
        ensures done { OnOk result (CallDone self.old.call.items (memory_of self.old) (memory_of self.new) (room_of self.old.held) out.old.items out.new.items) }
        ensures counted { OnOk result (CallNoted self.old.call.items (memory_of self.old) (room_of self.old.held) self.old.tally self.new.tally) }
        ensures fated { IfOk result (CallFated self.old.call.items (memory_of self.old) (room_of self.old.held)) }
        ensures room { OnOk result (room_of self.new.held ≡ room_of self.old.held) }
        ensures at_hand { self.new.call ≡ self.old.call }
    {
        let Some(answer) = self.held.call(self.call.as_slice()) else {
            return Ok(Fate::Quiet);
        };
        put_answer(out, answer)?;
        self.tally.note(answer);
        Ok(fate_told(answer))
    }

    // Appends the answer to a line, and a line feed.
    fn answer_line(&mut self, line: &[u8], out: &mut Vec<u8>) -> Result<Fate, AllocError>
        ensures done { OnOk result (CallsDone (call_in_line line.now ∷ []) (memory_of self.old) (memory_of self.new) (room_of self.old.held) out.old.items out.new.items) }
        ensures counted { OnOk result (CallsNoted (call_in_line line.now ∷ []) (memory_of self.old) (room_of self.old.held) self.old.tally self.new.tally) }
        ensures fated { IfOk result (CallsFated (call_in_line line.now ∷ []) (memory_of self.old) (room_of self.old.held)) }
        ensures room { OnOk result (room_of self.new.held ≡ room_of self.old.held) }
        ensures at_hand { IfOk result (AtHand (call_in_line line.now ∷ []) self.new.call.items) }
    {
        let fate = match read_line(line, &mut self.call) {
            Ok(()) => self.answer_call(out)?,
            Err(LineError::Misfit(place)) => {
                put_misfit(out, place, &mut self.tally)?;
                Fate::Refused(Refusal::Unreadable, place as u64)
            }
            Err(LineError::OutOfMemory(e)) => return Err(e),
        };
        out.push(b'\n')?;
        Ok(fate)
    }

    /// Appends the answer to a line and a line feed, counts it, and gives what became of its call, unless the line is blank or a remark.
    pub fn answer_if_heard(&mut self, line: &[u8], out: &mut Vec<u8>) -> Result<Fate, AllocError>
        ensures done { OnOk result (CallsDone (calls_in (heard line.now)) (memory_of self.old) (memory_of self.new) (room_of self.old.held) out.old.items out.new.items) }
        ensures counted { OnOk result (CallsNoted (calls_in (heard line.now)) (memory_of self.old) (room_of self.old.held) self.old.tally self.new.tally) }
        ensures fated { IfOk result (CallsFated (calls_in (heard line.now)) (memory_of self.old) (room_of self.old.held)) }
        ensures room { OnOk result (room_of self.new.held ≡ room_of self.old.held) }
        ensures at_hand { IfOk result (AtHand (calls_in (heard line.now)) self.new.call.items) }
    {
        let line = bare(line);
        if is_quiet(line) {
            return Ok(Fate::Quiet);
        }
        self.answer_line(line, out)
    }

    /// The bytes of the call that was read last.
    pub fn at_hand(&self) -> &[u8]
        ensures { result.now ≡ self.now.call.items }
    {
        self.call.as_slice()
    }
}
