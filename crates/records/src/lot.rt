//! Lots in the two slices.

ghost use Rattle.std.specs.Prelude.{refl};
ghost use Rattle.std.proofs.Common.{rules};
ghost use Rattle.records.specs.Kinds.{lot_kind};
ghost use Rattle.records.specs.Sound.{lot_sound};

use super::split_record::SplitRecord;

/// So many pieces of an item, what they cost together, and the document that they came with.
#[derive(Clone, Copy, PartialEq, Eq, Debug, Default)]
pub struct Lot {
    pub item: u32,
    pub pieces: u32,
    pub cost: u64,
    pub document: u64,
}

impl SplitRecord for Lot {
    ghost kind = { lot_kind };

    fn from_words(wide: &[u64; 2], narrow: &[u32; 2]) -> Lot {
        let [cost, document] = *wide;
        let [item, pieces] = *narrow;
        Lot {
            item,
            pieces,
            cost,
            document,
        }
    }

    fn to_words(self) -> ([u64; 2], [u32; 2]) {
        ([self.cost, self.document], [self.item, self.pieces])
    }

    ghost of_two = { (refl, refl) };

    ghost sound = { lot_sound };

    ghost nothing_by_default = { Prim.search rules };
}
