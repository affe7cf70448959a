//! Readers over what is left of a line: what was read and what is left then, or what is left from the word that does not fit on.

ghost use Rattle.std.specs.Prelude.{◌≡◌};
ghost use Rattle.std.specs.Result.{result_map_both};
ghost use Rattle.std.specs.Str.{bytes_eq};
ghost use Rattle.words.specs.Readers.{number, keyword, mark, end};

use crate::numerals::value;
use crate::spans::{first_word, skip_blanks};

/// Whether two words are the same. `==` takes no literal such as `b"by"` beside a slice.
pub fn same(a: &[u8], b: &[u8]) -> bool
    ensures { result ≡ bytes_eq a.now b.now }
{
    a == b
}

/// Reads a number.
#[tactic(auto, unfolding(crate::specs::Readers::number))]
pub fn read_number(line: &[u8]) -> Result<(u64, &[u8]), &[u8]>
    ensures { result_map_both (λ p. (p.0, p.1.now)) (λ x. x.now) result ≡ number line.now }
{
    let at = skip_blanks(line);
    let (word, rest) = first_word(at);
    let n = value(word).ok_or(at)?;
    Ok((n, rest))
}

/// Reads the word `wanted`.
#[tactic(auto, unfolding(crate::specs::Readers::keyword))]
pub fn read_word<'a>(line: &'a [u8], wanted: &[u8]) -> Result<&'a [u8], &'a [u8]>
    ensures { result_map_both (λ x. x.now) (λ x. x.now) result ≡ keyword wanted.now line.now }
{
    let at = skip_blanks(line);
    let (word, rest) = first_word(at);
    if word == wanted { Ok(rest) } else { Err(at) }
}

/// Reads the byte `wanted`, a colon or a comma.
#[tactic(auto, unfolding(crate::specs::Readers::mark))]
pub fn read_mark(line: &[u8], wanted: u8) -> Result<&[u8], &[u8]>
    ensures { result_map_both (λ x. x.now) (λ x. x.now) result ≡ mark wanted line.now }
{
    match skip_blanks(line) {
        [byte, rest @ ..] if *byte == wanted => Ok(rest),
        at => Err(at),
    }
}

/// Reads the line's end.
#[tactic(auto, unfolding(crate::specs::Readers::end))]
pub fn read_end(line: &[u8]) -> Result<(), &[u8]>
    ensures { result_map_both (λ u. u) (λ x. x.now) result ≡ end line.now }
{
    match skip_blanks(line) {
        [] => Ok(()),
        word => Err(word),
    }
}
