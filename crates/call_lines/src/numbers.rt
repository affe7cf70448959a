//! The numbers of a call, up to the line's end.

ghost use Rattle.std.specs.Prelude.{◌≡◌};
ghost use Rattle.std.specs.Result.{result_map_both};
ghost use Rattle.call_lines.specs.Numbers.{numbers};

use words::{read_end, read_number};

/// Reads so many numbers and the line's end.
pub fn read_numbers<const N: usize>(line: &[u8]) -> Result<[u64; N], &[u8]>
    ensures { result_map_both (λ ns. ns) (λ x. x.now) result ≡ numbers N line.now }
{
    // Not `array::try_from_fn`: of a call that fails it does not say what was left of the line before it.
    let mut numbers = [0; N];
    let mut rest = line;
    for number in &mut numbers {
        let (n, after) = read_number(rest)?;
        *number = n;
        rest = after;
    }
    read_end(rest)?;
    Ok(numbers)
}
