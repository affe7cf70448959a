//! What the arguments ask for, word by word.

ghost use Rattle.std.specs.Prelude.{◌≡◌};
ghost use Rattle.arguments.specs.Options.{Took, usual_limits, number_to, nothing_asked, with_number, option_taken, with_file, with_journal, word_taken, ended, most};
ghost use Rattle.arguments.specs.Requests.{asked};

use crate::limit::Limit;
use crate::misuse::Misuse;
use layout::Limits;
use std::alloc::Global;
use words::value;

/// The limits of new books where no option says otherwise.
pub fn usual_limits() -> Limits
    ensures { result ≡ usual_limits }
{
    Limits {
        items: 32,
        orders: 64,
        lots: 128,
        parts: 32,
        entries: 256,
    }
}

/// What the next word is to say, as the option before it asks.
#[derive(Clone, Copy, PartialEq, Eq, Debug)]
pub enum Wanted {
    Number(Limit),
    Journal,
}

/// What a program is to do.
#[derive(Drop)]
pub struct Request {
    pub limits: Limits,
    /// The file of calls; without one they come from standard input.
    pub file: Option<String>,
    /// The file that the books last in, if they are to.
    pub journal: Option<String>,
    pub help: bool,
    wanted: Option<Wanted>,
}

// The number that a word writes, digits alone, if it is at most so much.
fn number_to(word: &[u8], most: u32) -> Option<u32>
    ensures { result ≡ number_to most word.now }
{
    layout::at_most(value(word)?, most)
}

impl Request {
    /// What no word asks for: books of these limits.
    pub fn new(limits: Limits) -> Request
        ensures { asked result ≡ nothing_asked limits }
    {
        Request {
            limits,
            file: None,
            journal: None,
            help: false,
            wanted: None,
        }
    }

    fn take_number(&mut self, limit: Limit, word: &str) -> Result<(), Misuse>
        ensures { Took (with_number limit (number_to (most limit) word.now) (asked self.old)) result (asked self.new) }
    {
        let value = number_to(word.as_bytes(), limit.most()).ok_or(Misuse::NotANumber(limit))?;
        self.limits = limit.put(self.limits, value);
        self.wanted = None;
        Ok(())
    }

    fn take_journal(&mut self, heap: Global, word: &str) -> Result<(), Misuse>
        ensures { Took (with_journal (asked self.old).journal word.now (asked self.old)) result (asked self.new) }
    {
        if self.journal.is_some() {
            return Err(Misuse::SecondJournal);
        }
        self.journal = Some(String::from_str(heap, word)?);
        self.wanted = None;
        Ok(())
    }

    fn take_option(&mut self, word: &str) -> Result<(), Misuse>
        ensures { Took (option_taken word.now (asked self.old)) result (asked self.new) }
    {
        match word {
            "--help" => self.help = true,
            "--journal" => self.wanted = Some(Wanted::Journal),
            option => self.wanted = Some(Wanted::Number(option.parse()?)),
        }
        Ok(())
    }

    fn take_file(&mut self, heap: Global, word: &str) -> Result<(), Misuse>
        ensures { Took (with_file (asked self.old).file word.now (asked self.old)) result (asked self.new) }
    {
        if self.file.is_some() {
            return Err(Misuse::SecondFile);
        }
        self.file = Some(String::from_str(heap, word)?);
        Ok(())
    }

    /// Takes one word more.
    pub fn take(&mut self, heap: Global, word: &str) -> Result<(), Misuse>
        ensures { Took (word_taken self.old.wanted word.now (asked self.old)) result (asked self.new) }
    {
        match self.wanted {
            Some(Wanted::Number(limit)) => self.take_number(limit, word),
            Some(Wanted::Journal) => self.take_journal(heap, word),
            None if word.starts_with('-') => self.take_option(word),
            None => self.take_file(heap, word),
        }
    }

    /// Whether nothing is missing at the end of the words.
    pub fn end(&self) -> Result<(), Misuse>
        ensures { result ≡ ended self.now.wanted }
    {
        match self.wanted {
            Some(Wanted::Number(limit)) => Err(Misuse::NumberMissing(limit)),
            Some(Wanted::Journal) => Err(Misuse::JournalMissing),
            None => Ok(()),
        }
    }
}
