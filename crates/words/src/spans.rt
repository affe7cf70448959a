//! Blanks and words in front of what is left of a line.

ghost use Rattle.std.specs.Prelude.{◌≡◌};
ghost use Rattle.words.specs.Words.{blank, gap, trimmed, word, past};

fn is_blank(byte: u8) -> bool
    ensures { result ≡ blank byte }
{
    matches!(byte, b' ' | b'\t')
}

fn is_gap(byte: u8) -> bool
    ensures { result ≡ gap byte }
{
    is_blank(byte) || matches!(byte, b':' | b',')
}

/// What is left after the blanks in front.
pub fn skip_blanks(line: &[u8]) -> &[u8]
    ensures { result.now ≡ trimmed line.now }
{
    let blanks = line.iter().take_while(|byte| is_blank(**byte)).count();
    &line[blanks..]
}

/// The word in front, and what comes after it. The word is empty where a blank, a mark or nothing is in front.
pub fn first_word(line: &[u8]) -> (&[u8], &[u8])
    ensures front { result.0.now ≡ word line.now }
    ensures rest { result.1.now ≡ past line.now }
{
    let len = line.iter().take_while(|byte| !is_gap(**byte)).count();
    line.split_at(len)
}
