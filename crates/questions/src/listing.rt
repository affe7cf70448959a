//! The lots of an item, written as an answer while they are read along its row.

ghost use Rattle.std.specs.Prelude.{◌≡◌, ◌≤◌, ◌++◌, length, take};
ghost use Rattle.fields.specs.Written.{wrote, over};
ghost use Rattle.layout.specs.Layout.{answer_need};
ghost use Rattle.memory.specs.Lent.{seen};
ghost use Rattle.questions.specs.Listing.{lot_of, lots_met, lots_written};
ghost use Rattle.std.specs.List.{flat_map};
ghost use Rattle.wire.specs.Rows.{lot_bytes};
ghost use Rattle.wire.specs.Told.{lot_told};

use fields::{ONE_FIELD, ROW_OF_FOUR};
use memory::View;
use records::Lot;
use wire::{Line, LotLine};

/// A lot as a line of an answer.
pub fn line(lot: Lot) -> LotLine
    ensures { lot_told result ≡ lot_of lot }
{
    LotLine {
        item: u64::from(lot.item),
        pieces: u64::from(lot.pieces),
        cost: lot.cost,
        document: lot.document,
    }
}

// Writes the lines behind the head: how many there are.
fn put_lots(view: View<'_>, item: u32, answer: &mut [u8]) -> u32
    requires { answer_need view.limits ≤ length answer.old }
    ensures count { result ≡ length (lots_met view.entry.limits item (seen view.entry)) }
    ensures few { result ≤ view.entry.limits.lots }
    ensures lines { answer.new ≡ over (take 9 answer.old ++ flat_map lot_bytes (lots_met view.entry.limits item (seen view.entry))) answer.old }
{
    // Counted by hand: `enumerate` would count once more beside what is answered.
    let mut count: u32 = 0;
    for cell in view.limits.lot_rows().cells_of(view.narrow, item) {
        let _ = line(view.lot(cell)).put(answer, count as usize);
        count += 1;
    }
    count
}

/// Writes the lots of an item as an answer: its length, or none where the bytes are fewer than the limits ask for.
pub fn write_lots(view: View<'_>, item: u32, answer: &mut [u8]) -> Option<usize>
    ensures { wrote result answer.new ≡ lots_written view.entry.limits item (seen view.entry) answer.old }
{
    if answer.len() < view.limits.answer_need() {
        return None;
    }
    let count = put_lots(view, item, answer);
    let _ = LotLine::begin(answer, u64::from(count));
    Some(ONE_FIELD + ROW_OF_FOUR * count as usize)
}
