//! A text whose last line was not finished.

ghost use Rattle.journal.specs.Torn.{Finished};

/// The lines that were finished: what stands up to the last line feed.
pub fn finished(text: &[u8]) -> &[u8]
    ensures { Finished text.now result.now }
{
    let mut lines = text;
    while let [front @ .., last] = lines {
        if *last == b'\n' {
            return lines;
        }
        lines = front;
    }
    lines
}
