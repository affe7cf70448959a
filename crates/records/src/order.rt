//! Orders.

ghost use Rattle.std.specs.Prelude.{[]};
ghost use Rattle.std.proofs.Common.{rules};
ghost use Rattle.records.specs.Kind.{word};
ghost use Rattle.records.specs.Kinds.{order_kind};
ghost use Rattle.records.specs.Sound.{order_sound, narrow_alike};

use super::record::Record;

/// An order to buy or to sell; how many pieces have come or gone, and how many of these are billed.
#[derive(Clone, Copy, PartialEq, Eq, Debug, Default)]
pub struct Order {
    pub sells: bool,
    pub item: u32,
    pub pieces: u32,
    pub price: u32,
    pub moved: u32,
    pub billed: u32,
}

impl Record<u32, 6> for Order {
    ghost words = { order_kind.narrow_words };

    ghost made = { order_kind.made (word [] 0) };

    ghost nothing = { order_kind.nothing };

    fn from_words(row: &[u32; 6]) -> Order {
        let [kind, item, pieces, price, moved, billed] = *row;
        Order {
            sells: kind == 1,
            item,
            pieces,
            price,
            moved,
            billed,
        }
    }

    fn to_words(self) -> [u32; 6] {
        [
            u32::from(self.sells),
            self.item,
            self.pieces,
            self.price,
            self.moved,
            self.billed,
        ]
    }

    ghost fits = { Prim.search rules };

    ghost alike = { narrow_alike order_sound };

    ghost nothing_by_default = { Prim.search rules };
}
