//! Books that answer a text of calls, and keep what they were before it from being lost.

ghost use Rattle.std.specs.Prelude.{◌≡◌, OnOk};
ghost use Rattle.session.specs.Held.{room_of};
ghost use Rattle.text.specs.Books.{memory_of};
ghost use Rattle.text.specs.Lines.{heard};
ghost use Rattle.text.specs.Noting.{CallsNoted};
ghost use Rattle.text.specs.Run.{calls_in, calls};
ghost use Rattle.text.specs.Standing.{CallsDone};
ghost use Rattle.journal.specs.Keeping.{CallsKept, Journaled};

use crate::document::put_document;
use std::alloc::AllocError;
use text::{Books, Fate};

// Answers a line, and keeps the line of its call, if that is a document.
fn keep_line(
    books: &mut Books,
    line: &[u8],
    out: &mut Vec<u8>,
    kept: &mut Vec<u8>,
) -> Result<(), AllocError>
    ensures done { OnOk result (CallsDone (calls_in (heard line.now)) (memory_of books.old) (memory_of books.new) (room_of books.old.held) out.old.items out.new.items) }
    ensures counted { OnOk result (CallsNoted (calls_in (heard line.now)) (memory_of books.old) (room_of books.old.held) books.old.tally books.new.tally) }
    ensures room { OnOk result (room_of books.new.held ≡ room_of books.old.held) }
    ensures kept { OnOk result (CallsKept (calls_in (heard line.now)) (memory_of books.old) (room_of books.old.held) kept.old.items kept.new.items) }
{
    if let Fate::Taken = books.answer_if_heard(line, out)? {
        put_document(kept, books.at_hand())?;
    }
    Ok(())
}

// Line by line.
fn keep_lines(
    books: &mut Books,
    text: &[u8],
    out: &mut Vec<u8>,
    kept: &mut Vec<u8>,
) -> Result<(), AllocError>
    ensures done { OnOk result (CallsDone (calls text.now) (memory_of books.old) (memory_of books.new) (room_of books.old.held) out.old.items out.new.items) }
    ensures counted { OnOk result (CallsNoted (calls text.now) (memory_of books.old) (room_of books.old.held) books.old.tally books.new.tally) }
    ensures room { OnOk result (room_of books.new.held ≡ room_of books.old.held) }
    ensures kept { OnOk result (CallsKept (calls text.now) (memory_of books.old) (room_of books.old.held) kept.old.items kept.new.items) }
{
    for line in text.split(|byte| *byte == b'\n') {
        keep_line(books, line, out, kept)?;
    }
    Ok(())
}

/// Appends what the books answer to the calls of a text, as `Books::answer` does, and to `kept` the lines of just the documents among them: the calls
/// that were taken and are no questions. Books that start again, and go through a journal with what is kept behind it, are as these.
pub fn answer_and_keep(
    books: &mut Books,
    text: &[u8],
    out: &mut Vec<u8>,
    kept: &mut Vec<u8>,
) -> Result<(), AllocError>
    ensures { OnOk result (Journaled text.now books.old books.new out.old.items out.new.items kept.old.items kept.new.items) }
{
    keep_lines(books, text, out, kept)?;
    Ok(())
}
