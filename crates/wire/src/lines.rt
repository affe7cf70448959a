ghost use Rattle.std.proofs.Common.{refl, rules};
ghost use Rattle.firm.specs.Calls.{lots, entries};
ghost use Rattle.firm.specs.Stock.{Lot, Part};
ghost use Rattle.firm.specs.Ledger.{Entry};
ghost use Rattle.wire.specs.declared.answer_kind.AnswerKind.TheVariants.{Lots, Entries};
ghost use Rattle.wire.specs.Rows.{part_in, part_bytes, lot_in, lot_bytes, entry_in, entry_bytes};
ghost use Rattle.wire.specs.Said.{parts_in, part_said};
ghost use Rattle.wire.specs.Told.{lots_in, lot_told, entries_in, entry_told};
ghost use Rattle.wire.specs.Lines.{parts_by_row, parts_counted, part_by_fields, lots_by_row, lots_counted, lot_by_fields, entries_by_row, entries_counted, entry_by_fields};

use crate::{AnswerKind, Line, Row};

/// A part of a recipe: an item, and how many pieces of it go into one piece.
#[derive(Clone, Copy, PartialEq, Eq, Debug)]
pub struct RecipePart {
    pub item: u64,
    pub each: u64,
}

#[tactic(auto, unfolding(crate::specs::Rows::part_in, crate::specs::Rows::part_bytes))]
impl Row<2> for RecipePart {
    ghost Told = { Part };

    ghost told = { part_said };

    ghost told_in = { part_in };

    ghost all_in = { parts_in };

    ghost bytes_of = { part_bytes };

    ghost has_fields = { Prim.search rules };

    ghost fits_memory = { Prim.search rules };

    ghost row_by_row = { parts_by_row };

    ghost counted = { parts_counted };

    ghost by_fields = { part_by_fields };

    fn of_fields(&[item, each]: &[u64; 2]) -> RecipePart {
        RecipePart { item, each }
    }

    fn fields(self) -> [u64; 2] {
        [self.item, self.each]
    }
}

/// A lot in an answer.
#[derive(Clone, Copy, PartialEq, Eq, Debug)]
pub struct LotLine {
    pub item: u64,
    pub pieces: u64,
    pub cost: u64,
    pub document: u64,
}

#[tactic(auto, unfolding(crate::specs::Rows::lot_in, crate::specs::Rows::lot_bytes))]
impl Row<4> for LotLine {
    ghost Told = { Lot };

    ghost told = { lot_told };

    ghost told_in = { lot_in };

    ghost all_in = { lots_in };

    ghost bytes_of = { lot_bytes };

    ghost has_fields = { Prim.search rules };

    ghost fits_memory = { Prim.search rules };

    ghost row_by_row = { lots_by_row };

    ghost counted = { lots_counted };

    ghost by_fields = { lot_by_fields };

    fn of_fields(&[item, pieces, cost, document]: &[u64; 4]) -> LotLine {
        LotLine {
            item,
            pieces,
            cost,
            document,
        }
    }

    fn fields(self) -> [u64; 4] {
        [self.item, self.pieces, self.cost, self.document]
    }
}

impl Line for LotLine {
    ghost KIND = { Lots };

    ghost answer = { λ bytes. lots (lots_in bytes) };

    ghost line_by_line = { λ bytes. refl };

    const KIND: AnswerKind = AnswerKind::Lots;
}

/// An entry in an answer: the accounts on its left and right.
#[derive(Clone, Copy, PartialEq, Eq, Debug)]
pub struct EntryLine {
    pub left: u64,
    pub right: u64,
    pub amount: u64,
    pub document: u64,
}

#[tactic(auto, unfolding(crate::specs::Rows::entry_in, crate::specs::Rows::entry_bytes))]
impl Row<4> for EntryLine {
    ghost Told = { Entry };

    ghost told = { entry_told };

    ghost told_in = { entry_in };

    ghost all_in = { entries_in };

    ghost bytes_of = { entry_bytes };

    ghost has_fields = { Prim.search rules };

    ghost fits_memory = { Prim.search rules };

    ghost row_by_row = { entries_by_row };

    ghost counted = { entries_counted };

    ghost by_fields = { entry_by_fields };

    fn of_fields(&[left, right, amount, document]: &[u64; 4]) -> EntryLine {
        EntryLine {
            left,
            right,
            amount,
            document,
        }
    }

    fn fields(self) -> [u64; 4] {
        [self.left, self.right, self.amount, self.document]
    }
}

impl Line for EntryLine {
    ghost KIND = { Entries };

    ghost answer = { λ bytes. entries (entries_in bytes) };

    ghost line_by_line = { λ bytes. refl };

    const KIND: AnswerKind = AnswerKind::Entries;
}
