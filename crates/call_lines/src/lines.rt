//! A line of text as the bytes of a call.

ghost use Rattle.std.specs.Prelude.{◌≡◌};
ghost use Rattle.wire.specs.Calls.{bytes_of_call};
ghost use Rattle.call_lines.specs.Lines.{bytes_or_rest, call_or_rest, call_or_place, call_in_line};
ghost use Rattle.call_lines.specs.Readings.{Gives, OnMemory, reading_of};

use crate::error::LineError;
use crate::operands::read_operands;
use crate::stop::Stop;
use openings::read_opening;

// Leaves the bytes of the call.
#[tactic(auto, unfolding(crate::specs::Lines::call_or_rest))]
fn read_call<'a>(line: &'a [u8], call: &mut Vec<u8>) -> Result<(), Stop<'a>>
    ensures { Gives (λ _. call.new.items) result (bytes_or_rest (call_or_rest line.now)) }
{
    let (kind, rest) = read_opening(line)?;
    read_operands(kind, rest, call)
}

/// Reads a line as a call; else says where it ceases to be one. The buffer then holds the call's bytes, or nothing if the line is no call, whatever it
/// held. `OutOfMemory` only for want of memory.
pub fn read_line(line: &[u8], call: &mut Vec<u8>) -> Result<(), LineError>
    ensures reading { OnMemory result (result ≡ reading_of (call_or_place line.now)) }
    ensures bytes { OnMemory result (call.new.items ≡ bytes_of_call (call_in_line line.now)) }
{
    match read_call(line, call) {
        Ok(()) => Ok(()),
        Err(Stop::At(rest)) => {
            call.clear();
            Err(LineError::Misfit(line.len().saturating_sub(rest.len())))
        }
        Err(Stop::OutOfMemory(e)) => Err(LineError::OutOfMemory(e)),
    }
}
