//! Fields of eight bytes, the low byte first, in rows of bytes.
#![tactic(auto)]

ghost use Rattle.std.specs.Prelude.{◌≡◌, ◌+◌, ◌*◌, min};

mod reading;
mod writing;

pub use reading::{fields, first_field, leading_field, nth_row, numbers_of, rows_in};
pub use writing::{put_fields, put_line};

/// The bytes of a field.
pub const FIELD: usize = 8;
/// The bytes of a kind and one field.
pub const ONE_FIELD: usize = 9;
/// The bytes of a row of two fields.
pub const ROW_OF_TWO: usize = 16;
/// The bytes of a row of four fields.
pub const ROW_OF_FOUR: usize = 32;

// The bytes of a kind and so many fields; for more than memory has, more than any row has.
fn row_size(fields: usize) -> usize
    ensures { result ≡ min (1 + 8 * fields) 18446744073709551615 }
{
    fields.saturating_mul(FIELD).saturating_add(1)
}
