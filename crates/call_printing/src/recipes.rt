//! A recipe's parts.

ghost use Rattle.std.specs.Prelude.{◌≡◌, ◌++◌, OnOk};
ghost use Rattle.wire.specs.Said.{parts_in, part_said};
ghost use Rattle.call_lines.specs.Written.{written_part, written_parts};

use crate::numbers::put_words;
use fields::{numbers_of, rows_in};
use std::alloc::AllocError;
use wire::{RecipePart, Row};

fn put_part(out: &mut Vec<u8>, part: RecipePart) -> Result<(), AllocError>
    ensures { OnOk result (out.new.items ≡ out.old.items ++ written_part (part_said part)) }
{
    put_words(out, b" item ", &[part.item])?;
    put_words(out, b", ", &[part.each])?;
    out.extend_from_slice(b" each")?;
    Ok(())
}

/// Appends the whole parts that bytes hold, with commas between.
pub fn put_parts(out: &mut Vec<u8>, parts: &[u8]) -> Result<(), AllocError>
    ensures { OnOk result (out.new.items ≡ out.old.items ++ written_parts (parts_in parts.now)) }
{
    let [first, others @ ..] = rows_in(parts) else {
        return Ok(());
    };
    put_part(out, RecipePart::of_fields(&numbers_of(first)))?;
    for part in others {
        out.extend_from_slice(b",")?;
        put_part(out, RecipePart::of_fields(&numbers_of(part)))?;
    }
    Ok(())
}
