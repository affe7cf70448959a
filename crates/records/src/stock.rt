//! The sums that are kept for an item.

ghost use Rattle.std.specs.Prelude.{[]};
ghost use Rattle.std.proofs.Common.{rules};
ghost use Rattle.records.specs.Kind.{word};
ghost use Rattle.records.specs.Kinds.{stock_kind};
ghost use Rattle.records.specs.Sound.{stock_sound, wide_alike};

use super::record::Record;

/// How many pieces of an item lie on hand, and what they cost together.
#[derive(Clone, Copy, PartialEq, Eq, Debug, Default)]
pub struct Stock {
    pub pieces: u64,
    pub worth: u64,
}

impl Record<u64, 2> for Stock {
    ghost words = { stock_kind.wide_words };

    ghost made = { λ f. stock_kind.made f (word [] 0) };

    ghost nothing = { stock_kind.nothing };

    fn from_words(row: &[u64; 2]) -> Stock {
        let [pieces, worth] = *row;
        Stock { pieces, worth }
    }

    fn to_words(self) -> [u64; 2] {
        [self.pieces, self.worth]
    }

    ghost fits = { Prim.search rules };

    ghost alike = { wide_alike stock_sound };

    ghost nothing_by_default = { Prim.search rules };
}
