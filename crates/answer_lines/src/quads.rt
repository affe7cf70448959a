//! Lots and entries: lines of four fields.

ghost use Rattle.std.specs.Prelude.{◌≡◌, ◌++◌, OnOk};
ghost use Rattle.answer_lines.specs.Shown.{shown_list};
ghost use Rattle.answer_lines.specs.Quads.{quads_in, shown_quad};

use fields::{numbers_of, rows_in};
use std::alloc::AllocError;
use words::put_numbers;

// One function for this and the parts of `call_printing` would take a closure that appends a row and can fail, and be no plainer.
/// Appends the whole lines that bytes hold, with commas between, or `none`.
pub fn put_quads(out: &mut Vec<u8>, lines: &[u8]) -> Result<(), AllocError>
    ensures { OnOk result (out.new.items ≡ out.old.items ++ shown_list shown_quad (quads_in lines.now)) }
{
    let [first, others @ ..] = rows_in::<4>(lines) else {
        out.extend_from_slice(b"none")?;
        return Ok(());
    };
    put_numbers(out, &numbers_of(first))?;
    for quad in others {
        out.extend_from_slice(b", ")?;
        put_numbers(out, &numbers_of(quad))?;
    }
    Ok(())
}
