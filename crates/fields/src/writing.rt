ghost use Rattle.std.specs.Prelude.{◌≡◌, ◌*◌, ◌<◌, ◌∷◌, length, slice_index};
ghost use Rattle.fields.specs.Bytes.{field_bytes, all_fields};
ghost use Rattle.fields.specs.Written.{wrote, written, line_put};

use crate::{FIELD, ONE_FIELD, ROW_OF_FOUR, row_size};
use std::array;

// Over a row of just their length.
fn fill_row<const N: usize>(row: &mut [u8], fields: [u64; N])
    requires { length row.old ≡ 8 * N }
    ensures { row.new ≡ all_fields fields.entry }
{
    let words: [[u8; FIELD]; N] = array::from_fn(
        |k| -> [u8; FIELD]
            requires { k < N }
            ensures { result ≡ field_bytes (slice_index fields k) }
        { fields[k].to_le_bytes() },
    );
    row.copy_from_slice(words.as_flattened());
}

/// Writes a kind and fields, and answers their length; nothing where they do not fit. Which kinds there are is for crates above.
pub fn put_fields<const N: usize>(out: &mut [u8], kind: u8, fields: [u64; N]) -> Option<usize>
    ensures { wrote result out.new ≡ written (kind ∷ all_fields fields.entry) out.old }
{
    let size = row_size(N);
    if out.len() < size {
        return None;
    }
    out[0] = kind;
    fill_row(&mut out[1..size], fields);
    Some(size)
}

/// Writes the k-th line of four fields behind a kind and a count, and answers where the line ends; nothing where it does not fit.
pub fn put_line(out: &mut [u8], k: usize, fields: [u64; 4]) -> Option<usize>
    ensures { wrote result out.new ≡ line_put k (all_fields fields) out.old }
{
    let lines = out.len().saturating_sub(ONE_FIELD) / ROW_OF_FOUR;
    if lines <= k {
        return None;
    }
    let at = ONE_FIELD + ROW_OF_FOUR * k;
    fill_row(&mut out[at..at + ROW_OF_FOUR], fields);
    Some(at + ROW_OF_FOUR)
}
