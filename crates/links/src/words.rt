//! Single words of a slice, whatever the index.

ghost use Rattle.std.specs.Prelude.{◌≡◌, slice_index_or, slice_set};

/// A word of a lent slice: a number of 32 or of 64 bits.
pub trait Word: Copy + Drop {
    ghost ZERO: { Self };

    /// What is read where nothing lies.
    const ZERO: Self;
}

impl Word for u32 {
    ghost ZERO = { 0 };

    const ZERO: u32 = 0;
}

impl Word for u64 {
    ghost ZERO = { 0 };

    const ZERO: u64 = 0;
}

/// What stands at `i`, or 0 past the end.
pub fn get<W: Word>(s: &[W], i: usize) -> W
    ensures { result ≡ slice_index_or s.now i W.ZERO }
{
    s.get(i).copied().unwrap_or(W::ZERO)
}

/// Writes `v` at `i`, or nothing past the end.
pub fn put<W: Word>(s: &mut [W], i: usize, v: W)
    ensures { s.new ≡ slice_set s.old i v }
{
    // `get_mut` would do, but a proof knows no word of a slice after it.
    if i < s.len() {
        s[i] = v;
    }
}
