//! Numbers as text.

ghost use Rattle.std.specs.Prelude.{◌≡◌, ◌++◌, decimal, OnOk};
ghost use Rattle.std.specs.List.{flat_map};
ghost use Rattle.words.specs.Spaced.{spaced, another_number};

use itoa::Buffer;
use std::alloc::AllocError;

/// Appends a number's decimal digits. An `Err` only for want of memory.
pub fn put_number(out: &mut Vec<u8>, n: u64) -> Result<(), AllocError>
    ensures { OnOk result (out.new.items ≡ out.old.items ++ decimal n) }
{
    let mut digits = Buffer::new();
    out.extend_from_slice(digits.format(n).as_bytes())
}

// Appends numbers, each with a space in front.
fn put_others(out: &mut Vec<u8>, numbers: &[u64]) -> Result<(), AllocError>
    ensures { OnOk result (out.new.items ≡ out.old.items ++ flat_map another_number numbers.now) }
{
    for n in numbers {
        out.extend_from_slice(b" ")?;
        put_number(out, *n)?;
    }
    Ok(())
}

/// Appends numbers with spaces between. An `Err` only for want of memory.
pub fn put_numbers(out: &mut Vec<u8>, numbers: &[u64]) -> Result<(), AllocError>
    ensures { OnOk result (out.new.items ≡ out.old.items ++ spaced numbers.now) }
{
    let [first, others @ ..] = numbers else {
        return Ok(());
    };
    put_number(out, *first)?;
    put_others(out, others)
}
