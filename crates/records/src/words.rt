//! Rows of words in the middle of a slice.

ghost use Rattle.std.specs.Prelude.{◌≡◌, ◌+◌, ◌≤◌, ◌<◌, T, take, drop, length, nat_le, MatchOption};
ghost use Rattle.records.specs.Kind.{over};

/// Whether the `count` words from `at` on lie in a slice of `len` words.
pub fn lies(len: usize, at: usize, count: usize) -> bool
    ensures exact { result ≡ nat_le (at + count) len }
    ensures inside { T result → at + count ≤ len }
{
    count <= len && at <= len - count
}

/// The `N` words from `at` on.
pub fn there<W, const N: usize>(words: &[W], at: usize) -> &[W; N]
    requires { at + N ≤ length words.now }
    ensures { result.now ≡ take N (drop at words.now) }
{
    words[at..at + N].first_chunk().unwrap()
}

/// The `N` words from `at` on, if they all lie in the slice.
pub fn row<W, const N: usize>(words: &[W], at: usize) -> Option<&[W; N]>
    ensures { MatchOption result (length words.now < at + N) (λ y. (at + N ≤ length words.now) × (y.now ≡ take N (drop at words.now))) }
{
    if !lies(words.len(), at, N) {
        return None;
    }
    Some(there(words, at))
}

/// Writes the words of a row from `at` on.
pub fn put<W: Copy + Drop, const N: usize>(words: &mut [W], at: usize, row: [W; N])
    requires { at + N ≤ length words.old }
    ensures { words.new ≡ over at row words.old }
{
    // A loop and not `copy_from_slice`, which asks first whether the two lie over each other.
    let part = &mut words[at..at + N];
    for k in 0..N {
        part[k] = row[k];
    }
}
