ghost use Rattle.std.specs.Prelude.{◌≡◌, ℕ, ◌*◌, ◌/◌, ◌%◌, ◌^◌, ◌<◌, ◌==◌, List, length};
ghost use Rattle.std.specs.Option.{option_map};
ghost use Rattle.fields.specs.Bytes.{fields_from, all_fields};
ghost use Rattle.wire.specs.Rows.{rows, nth};

use fields::{FIELD, nth_row};

/// A row of so many fields.
pub trait Row<const N: usize>: Copy {
    // What rows stand for, a row alone and bytes by their whole rows.
    ghost Told: { Type 0 };

    ghost told: { Self → Told };

    ghost told_in: { List ℕ → Told };

    ghost all_in: { List ℕ → List Told };

    // Its bytes.
    ghost bytes_of: { Told → List ℕ };

    /// The row of these fields.
    fn of_fields(fields: &[u64; N]) -> Self
        ensures { (bytes : List ℕ) → fields.now ≡ fields_from N 0 bytes → told result ≡ told_in bytes };

    /// Its fields.
    fn fields(self) -> [u64; N]
        ensures { all_fields result ≡ bytes_of (told self) };

    /// The k-th row in the bytes of rows.
    final fn nth(bytes: &[u8], k: usize) -> Option<Self>
        ensures { option_map told result ≡ nth (all_in bytes.now) k }
    {
        let fields = nth_row(bytes, k)?;
        Some(Self::of_fields(&fields))
    }

    /// How many whole rows bytes hold.
    final fn count(bytes: &[u8]) -> usize
        ensures rows { result ≡ length (all_in bytes.now) }
        ensures exact { result ≡ length bytes.now / (8 * N) }
    {
        bytes.len() / (FIELD * N)
    }

    /// Whether bytes hold nothing but whole rows.
    final fn whole(bytes: &[u8]) -> bool
        ensures { result ≡ (length bytes.now % (8 * N) == 0) }
    {
        bytes.len() % (FIELD * N) == 0
    }

    ghost has_fields: { 0 < N };

    ghost fits_memory: { N * 8 < 2 ^ 63 };

    ghost row_by_row: { (bytes : List ℕ) → all_in bytes ≡ rows told_in (8 * N) (length bytes / (8 * N)) bytes };

    ghost counted: { (bytes : List ℕ) → length bytes / (8 * N) ≡ length (all_in bytes) };

    ghost by_fields: { (bytes : List ℕ) → bytes_of (told_in bytes) ≡ all_fields (fields_from N 0 bytes) };
}
