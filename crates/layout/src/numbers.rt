//! Numbers of 64 bits that are within a limit of 32.

ghost use Rattle.std.specs.Prelude.{◌≡◌, Some, None, if◌then◌else◌, nat_le, nat_lt};

/// A number that is at most `most`.
pub fn at_most(value: u64, most: u32) -> Option<u32>
    ensures { result ≡ (if nat_le value most then Some value else None) }
{
    let value = u32::try_from(value).ok()?;
    (value <= most).then_some(value)
}

/// A number that is below `bound`.
pub fn below(value: u64, bound: u32) -> Option<u32>
    ensures { result ≡ (if nat_lt value bound then Some value else None) }
{
    let value = u32::try_from(value).ok()?;
    (value < bound).then_some(value)
}
