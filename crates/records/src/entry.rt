//! Entries in the two slices.

ghost use Rattle.std.specs.Prelude.{refl};
ghost use Rattle.std.proofs.Common.{rules};
ghost use Rattle.records.specs.Kinds.{entry_kind};
ghost use Rattle.records.specs.Sound.{entry_sound};

use super::split_record::SplitRecord;

/// An amount on the left of one account and on the right of another.
#[derive(Clone, Copy, PartialEq, Eq, Debug, Default)]
pub struct Entry {
    pub left: u32,
    pub right: u32,
    pub amount: u64,
    pub document: u64,
}

impl SplitRecord for Entry {
    ghost kind = { entry_kind };

    fn from_words(wide: &[u64; 2], narrow: &[u32; 2]) -> Entry {
        let [amount, document] = *wide;
        let [left, right] = *narrow;
        Entry {
            left,
            right,
            amount,
            document,
        }
    }

    fn to_words(self) -> ([u64; 2], [u32; 2]) {
        ([self.amount, self.document], [self.left, self.right])
    }

    ghost of_two = { (refl, refl) };

    ghost sound = { entry_sound };

    ghost nothing_by_default = { Prim.search rules };
}
