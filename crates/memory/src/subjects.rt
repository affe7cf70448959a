//! The records of orders, lots, entries and recipes, each by its number or cell.

ghost use Rattle.std.specs.Prelude.{◌≡◌, ℕ, ◌+◌, ◌&&◌, length, nat_le, nat_lt};
ghost use Rattle.layout.specs.Layout.{lot_at, wide_lot_at};
ghost use Rattle.memory.specs.Books.{order_record, put_order, lot_record, put_lot, entry_record, put_entry, part_record, put_part, recipe_of, put_recipe};
ghost use Rattle.memory.specs.Lent.{seen, words, Same, NarrowAlone};

use crate::lent::{Memory, View};
use records::{Entry, Lot, Order, Part, Recipe, Record, SplitRecord};

// One for each kind of record: a body says where the rows of its kind lie and nothing else, which a trait would only move elsewhere.
impl View<'_> {
    /// The order of a number.
    #[tactic(auto, unfolding(crate::specs::Books::order_record))]
    pub fn order(self, order: u32) -> Order
        ensures { result ≡ order_record self.entry.limits order self.entry.narrow.now }
    {
        Order::read(self.narrow, self.limits.order_at(order))
    }

    // How many cells, from the first on, have both rows of their lot in memory: one number, so that a lot is read after one test.
    #[inline(always)]
    fn lots_there(self) -> usize
        ensures { (c : ℕ) → nat_lt c result ≡ (nat_le (wide_lot_at self.entry.limits c + 2) (length self.entry.wide.now) && nat_le (lot_at self.entry.limits c + 2) (length self.entry.narrow.now)) }
    {
        let (wide, narrow) = (self.limits.wide_lot_at(0), self.limits.lot_at(0));
        let in_wide = self.wide.len().saturating_sub(wide) / 2;
        let in_narrow = self.narrow.len().saturating_add(2).saturating_sub(narrow) / 4;
        in_wide.min(in_narrow)
    }

    /// The lot of a cell.
    #[tactic(auto, unfolding(crate::specs::Books::lot_record))]
    pub fn lot(self, lot: u32) -> Lot
        ensures { result ≡ lot_record self.entry.limits lot (seen self.entry) }
    {
        if lot as usize >= self.lots_there() {
            return Lot::nothing();
        }
        let at = self.limits.lot_at(lot);
        Lot::read_there(self.wide, self.narrow, self.limits.wide_lot_at(lot), at)
    }

    /// The entry of a number.
    #[tactic(auto, unfolding(crate::specs::Books::entry_record))]
    pub fn entry(self, entry: u32) -> Entry
        ensures { result ≡ entry_record self.entry.limits entry (seen self.entry) }
    {
        let at = self.limits.entry_at(entry);
        Entry::read(self.wide, self.narrow, self.limits.wide_entry_at(entry), at)
    }

    /// The part in a row of the recipes' area.
    #[tactic(auto, unfolding(crate::specs::Books::part_record))]
    pub fn part(self, part: u32) -> Part
        ensures { result ≡ part_record self.entry.limits part self.entry.narrow.now }
    {
        Part::read(self.narrow, self.limits.part_at(part))
    }

    /// Where the recipe of an item lies.
    #[tactic(auto, unfolding(crate::specs::Books::recipe_of))]
    pub fn recipe(self, item: u32) -> Recipe
        ensures { result ≡ recipe_of item self.entry.narrow.now }
    {
        Recipe::read(self.narrow, layout::recipe_at(item))
    }
}

impl Memory<'_> {
    /// Puts the order of a number.
    #[tactic(auto, unfolding(crate::specs::Books::put_order))]
    pub fn put_order(&mut self, order: u32, value: Order)
        ensures narrow { self.new.narrow.now ≡ put_order self.old.limits order value self.old.narrow.now }
        ensures alone { NarrowAlone self.old self.new }
    {
        value.write(self.narrow, self.limits.order_at(order));
    }

    /// Puts the lot of a cell.
    #[tactic(auto, unfolding(crate::specs::Books::put_lot))]
    pub fn put_lot(&mut self, lot: u32, value: Lot)
        ensures words { words self.new ≡ put_lot self.old.limits lot value (words self.old) }
        ensures same { Same self.old self.new }
    {
        let at = self.limits.lot_at(lot);
        value.write(self.wide, self.narrow, self.limits.wide_lot_at(lot), at);
    }

    /// Puts the entry of a number.
    #[tactic(auto, unfolding(crate::specs::Books::put_entry))]
    pub fn put_entry(&mut self, entry: u32, value: Entry)
        ensures words { words self.new ≡ put_entry self.old.limits entry value (words self.old) }
        ensures same { Same self.old self.new }
    {
        let at = self.limits.entry_at(entry);
        value.write(self.wide, self.narrow, self.limits.wide_entry_at(entry), at);
    }

    /// Puts the part in a row of the recipes' area.
    #[tactic(auto, unfolding(crate::specs::Books::put_part))]
    pub fn put_part(&mut self, part: u32, value: Part)
        ensures narrow { self.new.narrow.now ≡ put_part self.old.limits part value self.old.narrow.now }
        ensures alone { NarrowAlone self.old self.new }
    {
        value.write(self.narrow, self.limits.part_at(part));
    }

    /// Says where the recipe of an item lies.
    #[tactic(auto, unfolding(crate::specs::Books::put_recipe))]
    pub fn put_recipe(&mut self, item: u32, value: Recipe)
        ensures narrow { self.new.narrow.now ≡ put_recipe item value self.old.narrow.now }
        ensures alone { NarrowAlone self.old self.new }
    {
        value.write(self.narrow, layout::recipe_at(item));
    }
}
