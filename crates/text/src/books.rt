//! Books in memory of their own, opened once, that answer one text of calls after another.

ghost use Rattle.std.specs.Prelude.{◌≡◌, true, MatchResult, OnOk};
ghost use Rattle.layout.specs.Layout.{is_good};
ghost use Rattle.memory.specs.Books.{limits_in};
ghost use Rattle.memory.specs.Lent.{seen};
ghost use Rattle.session.specs.Held.{room_of};
ghost use Rattle.text.specs.Books.{memory_of, New, Answered};
ghost use Rattle.text.specs.Noting.{CallsNoted};
ghost use Rattle.text.specs.Run.{calls, failure};
ghost use Rattle.text.specs.Standing.{CallsDone};

use crate::tally::Tally;
use layout::Limits;
use memory::View;
use session::{Held, RunError};
use std::alloc::{AllocError, Global};

/// Books, the memory that they are kept in, and how many calls they took and turned away.
#[derive(Drop)]
pub struct Books {
    pub(crate) held: Held,
    // the bytes of the call at hand
    pub(crate) call: Vec<u8>,
    pub(crate) tally: Tally,
}

impl Books {
    /// New books of these limits, which have taken no call yet. The memory that they are kept in is asked for here, once.
    pub fn open(heap: Global, limits: Limits) -> Result<Books, RunError>
        ensures { MatchResult result (λ b. (is_good limits ≡ true) × New limits b) (λ e. e ≡ failure limits) }
    {
        Ok(Books {
            held: Held::open(heap, limits)?,
            call: Vec::new(heap),
            tally: Tally::new(),
        })
    }

    // Line by line.
    fn answer_lines(&mut self, text: &[u8], out: &mut Vec<u8>) -> Result<(), AllocError>
        ensures done { OnOk result (CallsDone (calls text.now) (memory_of self.old) (memory_of self.new) (room_of self.old.held) out.old.items out.new.items) }
        ensures counted { OnOk result (CallsNoted (calls text.now) (memory_of self.old) (room_of self.old.held) self.old.tally self.new.tally) }
        ensures room { OnOk result (room_of self.new.held ≡ room_of self.old.held) }
    {
        for line in text.split(|byte| *byte == b'\n') {
            self.answer_if_heard(line, out)?;
        }
        Ok(())
    }

    /// Appends what the books answer to the calls of a text, a line for each line that is neither blank nor a remark.
    pub fn answer(&mut self, text: &[u8], out: &mut Vec<u8>) -> Result<(), AllocError>
        ensures { OnOk result (Answered text.now self.old self.new out.old.items out.new.items) }
    {
        self.answer_lines(text, out)
    }

    /// How many calls were taken and turned away so far.
    pub fn tally(&self) -> Tally
        ensures { result ≡ self.now.tally }
    {
        self.tally
    }

    /// The memory of the books, to be read.
    pub fn view(&self) -> View<'_>
        ensures words { seen result ≡ memory_of self.now }
        ensures limits { result.limits ≡ limits_in self.now.held.narrow.items }
    {
        self.held.view()
    }
}
