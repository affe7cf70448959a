//! The lines of a text, and which of them are calls.

ghost use Rattle.std.specs.Prelude.{◌≡◌};
ghost use Rattle.text.specs.Lines.{bare as bareLine, quiet};

use words::skip_blanks;

/// The line without a carriage return at its end.
pub fn bare(line: &[u8]) -> &[u8]
    ensures { result.now ≡ bareLine line.now }
{
    match line {
        [front @ .., b'\r'] => front,
        _ => line,
    }
}

/// Whether a line is no call: it is blank, or a remark.
pub fn is_quiet(line: &[u8]) -> bool
    ensures { result ≡ quiet line.now }
{
    matches!(skip_blanks(line), [] | [b'#', ..])
}
