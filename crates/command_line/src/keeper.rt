//! Books that answer, and last in a journal.

ghost use Rattle.std.specs.Prelude.{[], IfOk};
ghost use Rattle.text.specs.Books.{Answered};
ghost use Rattle.journal.specs.Replaying.{Replayed};

use crate::journal_file::{JournalFile, Opened};
use crate::trouble::Trouble;
use journal::{answer_and_keep, replay};
use std::alloc::Global;
use text::Books;

/// Books, and the journal that they last in.
#[derive(Drop)]
pub struct Keeper {
    pub books: Books,
    journal: JournalFile,
}

impl Keeper {
    /// Books that start again from a journal, and go on where they were. Its lines are on disk then, also those that a crash left unsynced.
    pub fn restart(heap: Global, opened: Opened) -> Result<Keeper, Trouble>
        ensures { IfOk result (λ k. Replayed opened.limits opened.lines.items k.books) }
    {
        let books = replay(heap, opened.limits, opened.lines.as_slice())?;
        opened.file.cut()?;
        Ok(Keeper {
            books,
            journal: opened.file,
        })
    }

    /// What the books answer to a text of calls. The documents among these are on disk before their answers are given.
    pub fn answer(&mut self, heap: Global, text: &[u8]) -> Result<Vec<u8>, Trouble>
        ensures { IfOk result (λ answers. Answered text.now self.old.books self.new.books [] answers.items) }
    {
        let mut answers = Vec::new(heap);
        let mut kept = Vec::new(heap);
        answer_and_keep(&mut self.books, text, &mut answers, &mut kept)?;
        self.journal.append(kept.as_slice())?;
        Ok(answers)
    }
}
