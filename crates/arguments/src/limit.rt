//! The options that widen the books.

ghost use Rattle.std.specs.Prelude.{◌≡◌, Some};
ghost use Rattle.arguments.specs.Options.{most, with_limit, option_name, limit_named, named_or_misuse};

use crate::misuse::Misuse;
use layout::Limits;
use std::fmt;
use std::str::FromStr;
use words::same;

/// Of what an option says how many there can be.
#[derive(Clone, Copy, Debug, PartialEq, Eq)]
pub enum Limit {
    Items,
    Orders,
    Lots,
    Parts,
    Entries,
}

// A match each: a table by number would be no plainer, and would not be asked for a limit that it lacks.
impl Limit {
    // Not `match word { b"--items" => .. }`: its proof needs a case for each byte. Nor `find` over all five: tried, and its proof does not close by search.
    /// The limit that an option names.
    pub fn named(word: &[u8]) -> Option<Limit>
        ensures { result ≡ limit_named word.now }
    {
        if same(word, b"--items") {
            Some(Limit::Items)
        } else if same(word, b"--orders") {
            Some(Limit::Orders)
        } else if same(word, b"--lots") {
            Some(Limit::Lots)
        } else if same(word, b"--parts") {
            Some(Limit::Parts)
        } else if same(word, b"--entries") {
            Some(Limit::Entries)
        } else {
            None
        }
    }

    /// The option that names it.
    pub fn option(self) -> &'static str
        ensures { result.now ≡ option_name self }
    {
        match self {
            Limit::Items => "--items",
            Limit::Orders => "--orders",
            Limit::Lots => "--lots",
            Limit::Parts => "--parts",
            Limit::Entries => "--entries",
        }
    }

    /// The most that books can be opened with.
    pub fn most(self) -> u32
        ensures { result ≡ most self }
    {
        match self {
            Limit::Items => layout::MOST_ITEMS,
            Limit::Orders => layout::MOST_ORDERS,
            Limit::Lots => layout::MOST_LOTS,
            Limit::Parts => layout::MOST_PARTS,
            Limit::Entries => layout::MOST_ENTRIES,
        }
    }

    /// The limits with another number for this one.
    pub fn put(self, limits: Limits, value: u32) -> Limits
        ensures { result ≡ with_limit self value limits }
    {
        match self {
            Limit::Items => Limits {
                items: value,
                ..limits
            },
            Limit::Orders => Limits {
                orders: value,
                ..limits
            },
            Limit::Lots => Limits {
                lots: value,
                ..limits
            },
            Limit::Parts => Limits {
                parts: value,
                ..limits
            },
            Limit::Entries => Limits {
                entries: value,
                ..limits
            },
        }
    }
}

/// The limit that an option names.
impl FromStr for Limit {
    type Err = Misuse;

    ghost from_str_gives = { λ word r. r ≡ named_or_misuse word };

    fn from_str(word: &str) -> Result<Limit, Misuse> {
        Limit::named(word.as_bytes()).ok_or(Misuse::NoSuchOption)
    }
}

/// The option that names it.
impl fmt::Display for Limit {
    ghost output = { λ limit. Some (option_name limit) };

    fn fmt<W: fmt::Write>(&self, f: &mut fmt::Formatter<W>) -> fmt::Result {
        f.write_str(self.option())
    }
}
