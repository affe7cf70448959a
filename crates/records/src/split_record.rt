//! Records in a row of words of each slice.

ghost use Rattle.std.specs.Prelude.{◌≡◌, ◌+◌, ◌≤◌, length};
ghost use Rattle.records.specs.Kind.{Kind, Sound, word, read, write};
ghost use Rattle.records.specs.State.{state};

use super::words;

/// A record that is kept in two words of the wide slice, and in two of the narrow slice.
pub trait SplitRecord: Copy + Drop + Default {
    ghost kind: { Kind Self };

    /// The record that the words of two rows make.
    fn from_words(wide: &[u64; 2], narrow: &[u32; 2]) -> Self
        ensures { result ≡ kind.made (word wide.now 0) (word narrow.now 0) };

    /// The words of the record's rows.
    fn to_words(self) -> ([u64; 2], [u32; 2])
        ensures wide { result.0 ≡ kind.wide_words self }
        ensures narrow { result.1 ≡ kind.narrow_words self };

    /// The record whose rows lie at `wide_at` and `narrow_at`, or that of nothing where they are not wholly there.
    final fn read(wide: &[u64], narrow: &[u32], wide_at: usize, narrow_at: usize) -> Self
        ensures { result ≡ read kind wide_at narrow_at (state wide.now narrow.now) }
    {
        if !words::lies(wide.len(), wide_at, 2) || !words::lies(narrow.len(), narrow_at, 2) {
            return Self::nothing();
        }
        Self::read_there(wide, narrow, wide_at, narrow_at)
    }

    /// The record whose rows lie at `wide_at` and `narrow_at`.
    final fn read_there(wide: &[u64], narrow: &[u32], wide_at: usize, narrow_at: usize) -> Self
        requires wide_lies { wide_at + 2 ≤ length wide.now }
        requires narrow_lies { narrow_at + 2 ≤ length narrow.now }
        ensures { result ≡ read kind wide_at narrow_at (state wide.now narrow.now) }
    {
        Self::from_words(words::there(wide, wide_at), words::there(narrow, narrow_at))
    }

    // A function by itself, out of the way of the records that are there: in a loop, the compiler would make four zeros for each.
    /// The record of nothing.
    #[cold]
    #[inline(never)]
    final fn nothing() -> Self
        ensures { result ≡ kind.nothing }
    {
        Self::default()
    }

    /// Writes the record to the rows at `wide_at` and `narrow_at`, if they are wholly there.
    final fn write(self, wide: &mut [u64], narrow: &mut [u32], wide_at: usize, narrow_at: usize)
        ensures { state wide.new narrow.new ≡ write kind wide_at narrow_at self (state wide.old narrow.old) }
    {
        let (wide_row, narrow_row) = self.to_words();
        if words::lies(wide.len(), wide_at, 2) && words::lies(narrow.len(), narrow_at, 2) {
            words::put(wide, wide_at, wide_row);
            words::put(narrow, narrow_at, narrow_row);
        }
    }

    ghost of_two: { (kind.wide_size ≡ 2) × (kind.narrow_size ≡ 2) };

    ghost sound: { Sound kind };

    // The record of nothing is the default.
    ghost nothing_by_default: { (x : Self) → Self.is_default x → x ≡ kind.nothing };
}
