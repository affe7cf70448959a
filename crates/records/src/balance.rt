//! The sums that are kept for an account.

ghost use Rattle.std.specs.Prelude.{[]};
ghost use Rattle.std.proofs.Common.{rules};
ghost use Rattle.records.specs.Kind.{word};
ghost use Rattle.records.specs.Kinds.{balance_kind};
ghost use Rattle.records.specs.Sound.{balance_sound, wide_alike};

use super::record::Record;

/// The sums of an account's entries, on its left and on its right.
#[derive(Clone, Copy, PartialEq, Eq, Debug, Default)]
pub struct Balance {
    pub left: u64,
    pub right: u64,
}

impl Record<u64, 2> for Balance {
    ghost words = { balance_kind.wide_words };

    ghost made = { λ f. balance_kind.made f (word [] 0) };

    ghost nothing = { balance_kind.nothing };

    fn from_words(row: &[u64; 2]) -> Balance {
        let [left, right] = *row;
        Balance { left, right }
    }

    fn to_words(self) -> [u64; 2] {
        [self.left, self.right]
    }

    ghost fits = { Prim.search rules };

    ghost alike = { wide_alike balance_sound };

    ghost nothing_by_default = { Prim.search rules };
}
