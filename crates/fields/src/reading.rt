ghost use Rattle.std.specs.Prelude.{◌≡◌, ◌+◌, ◌*◌, ◌/◌, ◌<◌, ◌≤◌, [], length, map, slice_index_or, if◌then◌else◌, Some, None, Ok, Err, nat_le};
ghost use Rattle.fields.specs.Bytes.{value, field_at, fields_from, rows_of, sized, nth_row};

use crate::{FIELD, row_size};
use std::array;

// The number that a word of eight bytes writes.
fn number(word: &[u8; FIELD]) -> u64
    ensures { result ≡ value word.now }
{
    u64::from_le_bytes(*word)
}

/// The numbers that words of eight bytes write.
pub fn numbers_of<const N: usize>(words: &[[u8; FIELD]; N]) -> [u64; N]
    ensures { result ≡ map value words.now }
{
    array::from_fn(
        |k| -> u64
            requires { k < N }
            ensures { result ≡ value (slice_index_or words.entry.now k []) }
        { number(&words[k]) },
    )
}

/// The field that the bytes begin with, if they are so many.
pub fn leading_field(bytes: &[u8]) -> Option<u64>
    ensures { result ≡ (if nat_le 8 (length bytes.now) then Some (field_at 0 bytes.now) else None) }
{
    bytes.first_chunk().map(number)
}

/// The field behind a first byte, whatever follows it; else the place where its bytes end.
pub fn first_field(bytes: &[u8]) -> Result<u64, usize>
    ensures { result ≡ (if nat_le 9 (length bytes.now) then Ok (field_at 1 bytes.now) else Err (length bytes.now)) }
{
    bytes.get(1..).and_then(leading_field).ok_or(bytes.len())
}

/// The fields behind a first byte, if they are the whole row; else the place where it ceases to be so.
pub fn fields<const N: usize>(bytes: &[u8]) -> Result<[u64; N], usize>
    ensures { result ≡ sized (1 + 8 * N) bytes.now (fields_from N 1 bytes.now) }
{
    let size = row_size(N);
    if bytes.len() != size {
        return Err(bytes.len().min(size));
    }
    let (words, _) = bytes[1..].as_chunks();
    Ok(numbers_of(words.as_array().unwrap()))
}

/// The whole rows of so many fields that bytes hold, as words of eight bytes.
pub fn rows_in<const N: usize>(bytes: &[u8]) -> &[[[u8; FIELD]; N]]
    requires { 0 < N }
    ensures { map (map value) result.now ≡ rows_of N (length bytes.now / (8 * N)) bytes.now }
{
    let (words, _) = bytes.as_chunks();
    let (rows, _) = words.as_chunks();
    rows
}

/// The k-th of rows of so many fields.
pub fn nth_row<const N: usize>(rows: &[u8], k: usize) -> Option<[u64; N]>
    requires { 0 < N }
    ensures { result ≡ nth_row (8 * N) k rows.now (fields_from N (8 * N * k) rows.now) }
{
    let row = rows_in(rows).get(k)?;
    Some(numbers_of(row))
}
