//! Records in a row of words of one slice.

ghost use Rattle.std.specs.Prelude.{◌≡◌, ℕ, ◌*◌, ◌^◌, ◌<◌, List};
ghost use Rattle.std.specs.Mem.{type_size};
ghost use Rattle.records.specs.Kind.{word_or, read_row, write_row, Alike};

use super::words;
use links::Word;

/// A record that is kept in a row of `N` words of a slice.
pub trait Record<W: Word, const N: usize>: Copy + Drop + Default {
    ghost words: { Self → List W };

    ghost made: { (ℕ → W) → Self };

    ghost nothing: { Self };

    /// The record that the words of a row make.
    fn from_words(row: &[W; N]) -> Self
        ensures { result ≡ made (word_or W.ZERO row.now 0) };

    /// The words of the record's row.
    fn to_words(self) -> [W; N]
        ensures { result ≡ words self };

    /// The record whose row lies at `at`, or that of nothing where the row is not wholly there.
    final fn read(slice: &[W], at: usize) -> Self
        ensures { result ≡ read_row W.ZERO N made nothing at slice.now }
    {
        match words::row(slice, at) {
            Some(row) => Self::from_words(row),
            None => Self::default(),
        }
    }

    /// Writes the record to the row at `at`, if it is wholly there.
    final fn write(self, slice: &mut [W], at: usize)
        ensures { slice.new ≡ write_row N words at self slice.old }
    {
        if words::lies(slice.len(), at, N) {
            words::put(slice, at, self.to_words());
        }
    }

    // An array of a row's words fits in memory.
    ghost fits: { N * type_size W.row < 2 ^ 63 };

    // A record depends on the words of its row alone.
    ghost alike: { Alike N made };

    // The record of nothing is the default.
    ghost nothing_by_default: { (x : Self) → Self.is_default x → x ≡ nothing };
}
