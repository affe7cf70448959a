//! What stands after the words that begin a call.

ghost use Rattle.std.specs.Prelude.{◌*◌, ◌^◌, ◌<◌, ◌∷◌, Ok};
ghost use Rattle.words.specs.Readers.{then};
ghost use Rattle.fields.specs.Bytes.{all_fields};
ghost use Rattle.wire.specs.Said.{kind_number};
ghost use Rattle.call_lines.specs.Numbers.{numbers};
ghost use Rattle.call_lines.specs.Lines.{bytes_or_rest, call_after};
ghost use Rattle.call_lines.specs.Readings.{Gives};

use crate::numbers::read_numbers;
use crate::recipes::read_recipe;
use crate::rows::put_row;
use crate::stop::Stop;
use openings::Form;
use wire::CallKind;

fn read_fields<'a, const N: usize>(
    kind: CallKind,
    line: &'a [u8],
    call: &mut Vec<u8>,
) -> Result<(), Stop<'a>>
    requires { N * 8 < 2 ^ 63 }
    ensures { Gives (λ _. call.new.items) result (then (numbers N line.now) (λ ns. Ok (kind_number kind ∷ all_fields ns))) }
{
    let fields = read_numbers::<N>(line)?;
    put_row(call, kind, &fields)?;
    Ok(())
}

/// Reads what stands after a call's first words, and leaves the call's bytes.
pub fn read_operands<'a>(kind: CallKind, line: &'a [u8], call: &mut Vec<u8>) -> Result<(), Stop<'a>>
    ensures { Gives (λ _. call.new.items) result (bytes_or_rest (call_after kind line.now)) }
{
    match Form::from(kind) {
        Form::One => read_fields::<1>(kind, line, call),
        Form::Two => read_fields::<2>(kind, line, call),
        Form::Three => read_fields::<3>(kind, line, call),
        Form::Recipe => read_recipe(line, call),
    }
}
