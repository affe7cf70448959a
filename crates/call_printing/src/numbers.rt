//! A call's first words and its numbers.

ghost use Rattle.std.specs.Prelude.{◌≡◌, ◌++◌, OnOk};
ghost use Rattle.words.specs.Spaced.{spaced};

use std::alloc::AllocError;
use words::put_numbers;

/// Appends words and numbers.
pub fn put_words(out: &mut Vec<u8>, words: &[u8], numbers: &[u64]) -> Result<(), AllocError>
    ensures { OnOk result (out.new.items ≡ out.old.items ++ (words.now ++ spaced numbers.now)) }
{
    out.extend_from_slice(words)?;
    put_numbers(out, numbers)
}
