ghost use Rattle.std.specs.Prelude.{◌≡◌, length, if◌then◌else◌};
ghost use Rattle.fields.specs.Written.{wrote, row_written};
ghost use Rattle.firm.specs.Calls.{made_of, garbled};
ghost use Rattle.wire.specs.Calls.{call_as, bytes_of_call};
ghost use Rattle.wire.specs.Said.{heard, are_parts, parts_in};

use crate::call_writing::put;
use crate::{Call, CallKind, RecipePart, Row};
use fields::{ONE_FIELD, ROW_OF_TWO, first_field};

/// The bytes before a recipe's parts: number, item, count.
pub const RECIPE_HEAD: usize = 10;

/// The parts that a recipe can count in one byte.
pub const MOST_PARTS: usize = 255;

pub(crate) fn read_recipe(bytes: &[u8]) -> Result<Call<'_>, usize>
    ensures { heard result ≡ call_as 8 bytes.now }
{
    let item = first_field(bytes)?;
    if bytes.len() < RECIPE_HEAD {
        return Err(bytes.len());
    }
    let size = RECIPE_HEAD + ROW_OF_TWO * bytes[ONE_FIELD] as usize;
    if bytes.len() != size {
        return Err(bytes.len().min(size));
    }
    Ok(Call::MadeOf(item, &bytes[RECIPE_HEAD..]))
}

pub(crate) fn write_recipe(item: u64, parts: &[u8], out: &mut [u8]) -> Option<usize>
    ensures { wrote result out.new ≡ row_written (bytes_of_call (if are_parts parts.now then made_of item (parts_in parts.now) else garbled 0)) out.old }
{
    if !are_parts(parts) {
        return None;
    }
    let size = RECIPE_HEAD + parts.len();
    if out.len() < size {
        return None;
    }
    put(out, CallKind::MadeOf, [item])?;
    out[ONE_FIELD] = RecipePart::count(parts) as u8;
    out[RECIPE_HEAD..size].copy_from_slice(parts);
    Some(size)
}

/// Whether bytes are the parts of a recipe: whole ones, and no more than it can count.
pub fn are_parts(bytes: &[u8]) -> bool
    ensures { result ≡ are_parts bytes.now }
{
    RecipePart::whole(bytes) && RecipePart::count(bytes) <= MOST_PARTS
}
