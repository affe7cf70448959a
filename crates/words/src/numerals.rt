//! Numbers that words write.

ghost use Rattle.std.specs.Prelude.{◌≡◌, ◌-◌, if◌then◌else◌, Some, None};
ghost use Rattle.std.specs.Char.{is_ascii_digit};
ghost use Rattle.words.specs.Numerals.{valued};

// The number that a digit writes.
fn digit(byte: u8) -> Option<u64>
    ensures { result ≡ (if is_ascii_digit byte then Some (byte - 48) else None) }
{
    match byte {
        b'0'..=b'9' => Some(u64::from(byte - b'0')),
        _ => None,
    }
}

/// The number that a word writes: decimal digits, with zeros in front or not, and below 2^64.
pub fn value(word: &[u8]) -> Option<u64>
    ensures { result ≡ valued word.now }
{
    if word.is_empty() {
        return None;
    }
    let mut n: u64 = 0;
    for byte in word {
        n = n.checked_mul(10)?.checked_add(digit(*byte)?)?;
    }
    Some(n)
}
