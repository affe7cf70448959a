//! Books that start again from a journal.

ghost use Rattle.std.specs.Prelude.{◌≡◌, MatchResult};
ghost use Rattle.journal.specs.Replaying.{Replayed, NotReplayed};

use crate::error::ReplayError;
use layout::Limits;
use std::alloc::Global;
use text::{Books, Fate};

/// New books that have gone through the lines of a journal, or the first of these whose call they turn away.
pub fn replay(heap: Global, limits: Limits, journal: &[u8]) -> Result<Books, ReplayError>
    ensures { MatchResult result (Replayed limits journal.now) (NotReplayed limits journal.now) }
{
    let mut books = Books::open(heap, limits)?;
    let mut told = Vec::new(heap);
    let mut number: u64 = 0;
    for line in journal.split(|byte| *byte == b'\n') {
        number = number.saturating_add(1);
        told.clear();
        if let Fate::Refused(refusal, place) = books.answer_if_heard(line, &mut told)? {
            return Err(ReplayError::Turned(number, refusal, place));
        }
    }
    Ok(books)
}
