//! Rows of bytes, each behind its length in a field of eight bytes.

ghost use Rattle.std.specs.Prelude.{◌≡◌, ◌<◌, ◌∷◌, ◌++◌, length, OnOk};
ghost use Rattle.fields.specs.Bytes.{field_at, field_bytes};
ghost use Rattle.session.specs.Running.{rows_of, framed, RowsComeBack};
ghost use Rattle.std.specs.Iterator.{YieldsFirstRef, item_count};

use fields::FIELD;
use std::alloc::AllocError;

// The first row, and what comes after it; a row that ends too soon has the bytes that there are.
fn first_row(bytes: &[u8]) -> (&[u8], &[u8])
    ensures rows { 0 < length bytes.now → rows_of bytes.now ≡ result.0.now ∷ rows_of result.1.now }
    ensures shorter { 0 < length bytes.now → length result.1.now < length bytes.now }
{
    let Some(size) = fields::leading_field(bytes) else {
        return (&[], &[]);
    };
    let body = &bytes[FIELD..];
    let size = usize::try_from(size).unwrap_or(usize::MAX);
    body.split_at(size.min(body.len()))
}

/// The rows of bytes, one after the other.
#[derive(Drop)]
pub struct Rows<'a>(&'a [u8]);

impl<'a> Rows<'a> {
    /// The rows of `bytes`.
    pub fn of(bytes: &'a [u8]) -> Rows<'a>
        ensures { result.0.now ≡ bytes.now }
    {
        Rows(bytes)
    }
}

impl<'a> Iterator for Rows<'a> {
    type Item = &'a [u8];

    ghost next_gives = { YieldsFirstRef (λ s. rows_of s.0.now) };

    ghost remaining = { item_count (λ s. rows_of s.0.now) };

    fn next(&mut self) -> Option<&'a [u8]> {
        if self.0.is_empty() {
            return None;
        }
        let (row, rest) = first_row(self.0);
        self.0 = rest;
        Some(row)
    }
}

/// Rows that were put one behind the other come back as they were.
#[tactic(auto, using(crate::proofs::Framing::rows_come_back))]
pub fn rows_come_back_stands()
    ensures { RowsComeBack }
{}

/// Appends a row behind its length.
pub fn put_row(out: &mut Vec<u8>, row: &[u8]) -> Result<(), AllocError>
    ensures { OnOk result (out.new.items ≡ out.old.items ++ framed row.now) }
{
    let size = (row.len() as u64).to_le_bytes();
    out.extend_from_slice(&size)?;
    out.extend_from_slice(row)?;
    Ok(())
}
