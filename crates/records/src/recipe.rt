//! Where recipes lie.

ghost use Rattle.std.specs.Prelude.{[]};
ghost use Rattle.std.proofs.Common.{rules};
ghost use Rattle.records.specs.Kind.{word};
ghost use Rattle.records.specs.Kinds.{recipe_kind};
ghost use Rattle.records.specs.Sound.{recipe_sound, narrow_alike};

use super::record::Record;

/// Where the recipe of an item lies: one more than the index of its first row among the parts, or 0 where the item has no
/// recipe; and how many parts it has.
// No `Option`: the record is its two words in lent memory, where 0 says that there is none; one more than the largest word has no place there.
#[derive(Clone, Copy, PartialEq, Eq, Debug, Default)]
pub struct Recipe {
    pub first: u32,
    pub parts: u32,
}

impl Record<u32, 2> for Recipe {
    ghost words = { recipe_kind.narrow_words };

    ghost made = { recipe_kind.made (word [] 0) };

    ghost nothing = { recipe_kind.nothing };

    fn from_words(row: &[u32; 2]) -> Recipe {
        let [first, parts] = *row;
        Recipe { first, parts }
    }

    fn to_words(self) -> [u32; 2] {
        [self.first, self.parts]
    }

    ghost fits = { Prim.search rules };

    ghost alike = { narrow_alike recipe_sound };

    ghost nothing_by_default = { Prim.search rules };
}
