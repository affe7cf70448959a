//! Parts of recipes.

ghost use Rattle.std.specs.Prelude.{[]};
ghost use Rattle.std.proofs.Common.{rules};
ghost use Rattle.records.specs.Kind.{word};
ghost use Rattle.records.specs.Kinds.{part_kind};
ghost use Rattle.records.specs.Sound.{part_sound, narrow_alike};

use super::record::Record;

/// A part of a recipe: so many pieces of an item go into each piece that is made. In front of a recipe's parts stands one
/// more, with the item that is made and the number of parts.
#[derive(Clone, Copy, PartialEq, Eq, Debug, Default)]
pub struct Part {
    pub item: u32,
    pub each: u32,
}

impl Record<u32, 2> for Part {
    ghost words = { part_kind.narrow_words };

    ghost made = { part_kind.made (word [] 0) };

    ghost nothing = { part_kind.nothing };

    fn from_words(row: &[u32; 2]) -> Part {
        let [item, each] = *row;
        Part { item, each }
    }

    fn to_words(self) -> [u32; 2] {
        [self.item, self.each]
    }

    ghost fits = { Prim.search rules };

    ghost alike = { narrow_alike part_sound };

    ghost nothing_by_default = { Prim.search rules };
}
