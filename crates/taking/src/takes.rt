//! What is wanted is taken, and written as lines of an answer.

ghost use Rattle.std.specs.Prelude.{◌≡◌, ◌≤◌};
ghost use Rattle.memory.specs.Lent.{words, Same};
ghost use Rattle.questions.specs.Listing.{lot_of};
ghost use Rattle.taking.specs.Takes.{most_lines, taken_each, take_all, cost_taken, take_counted, tally, nothing_taken, with_part, tallied, told};

use crate::oldest::take_part;
use crate::wants::{Taken, Want};
use memory::Memory;
use records::Lot;
use wire::{Line, LotLine};

/// The most wants of a call: each leaves a part of one lot at most, so that an answer has room for what was taken.
const MOST_WANTS: u32 = 256;

/// Before anything is taken.
const NOTHING: Taken = Taken { lines: 0, cost: 0 };

// Writes what a lot gave behind the lines that are there.
#[tactic(auto, unfolding(crate::specs::Takes::with_part))]
fn put_part(answer: &mut [u8], taken: Taken, part: Lot) -> Taken
    ensures { tally answer.new result ≡ with_part (lot_of part) (tally answer.old taken) }
{
    let _ = questions::line(part).put(answer, taken.lines as usize);
    Taken {
        lines: taken.lines.saturating_add(1),
        cost: taken.cost.saturating_add(part.cost),
    }
}

// Takes what is wanted, one after the other, and writes the lines behind those that are there.
#[inline(always)]
fn take_each(memory: &mut Memory<'_>, wants: &[Want], answer: &mut [u8], before: Taken) -> Taken
    requires { before.lines ≤ most_lines memory.old.limits }
    ensures words { words memory.new ≡ (taken_each wants.now memory.old.limits before.lines (words memory.old)).slices }
    ensures same { Same memory.old memory.new }
    ensures lines { tally answer.new result ≡ tallied (taken_each wants.now memory.old.limits before.lines (words memory.old)).parts (tally answer.old before) }
{
    let most = memory.limits.lots.saturating_add(MOST_WANTS);
    let mut taken = before;
    'wants: for want in wants {
        let mut left = want.pieces;
        // A bound on turns, since words that are no books might lead on and on; as many lines are there, so that one number counts both.
        for line in taken.lines..most {
            if left == 0 {
                continue 'wants;
            }
            let Some(cell) = store::first_lot(memory.view(), want.item) else {
                continue 'wants;
            };
            taken.lines = line;
            let lot = memory.view().lot(cell);
            if u64::from(lot.pieces) > left {
                let part = take_part(memory, cell, lot, left);
                taken = put_part(answer, taken, part);
                continue 'wants;
            }
            taken = put_part(answer, taken, lot);
            left -= u64::from(lot.pieces);
            store::free_lot(memory, want.item, cell);
        }
    }
    taken
}

// Takes what is wanted, and counts off for each item what was taken of it.
fn count_each(memory: &mut Memory<'_>, wants: &[Want], answer: &mut [u8]) -> Taken
    ensures words { words memory.new ≡ (take_counted memory.old.limits wants.now (words memory.old)).slices }
    ensures same { Same memory.old memory.new }
    ensures lines { tally answer.new result ≡ tallied (take_counted memory.old.limits wants.now (words memory.old)).parts (tally answer.old nothing_taken) }
{
    let mut taken = NOTHING;
    for want in wants {
        let before = taken.cost;
        taken = take_each(memory, &[*want], answer, taken);
        let cost = taken.cost.saturating_sub(before);
        store::count_out(memory, want.item, want.pieces, cost);
    }
    taken
}

/// Takes pieces of items, the oldest lots first, and writes what was taken of which lots as an answer, where it has room.
#[tactic(auto, unfolding(crate::specs::Takes::told, crate::specs::Takes::take_all))]
#[inline(always)]
pub fn take_all(memory: &mut Memory<'_>, wants: &[Want], answer: &mut [u8]) -> Taken
    ensures words { words memory.new ≡ (take_all memory.old.limits wants.now (words memory.old)).slices }
    ensures same { Same memory.old memory.new }
    ensures answer { tally answer.new result ≡ told (take_all memory.old.limits wants.now (words memory.old)).parts answer.old }
    ensures cost { result.cost ≡ cost_taken (take_all memory.old.limits wants.now (words memory.old)) }
{
    let taken = take_each(memory, wants, answer, NOTHING);
    let _ = LotLine::begin(answer, u64::from(taken.lines));
    taken
}

/// Takes pieces as `take_all` does, and counts them off for their items as they are taken.
#[tactic(auto, unfolding(crate::specs::Takes::told))]
pub fn take_counted(memory: &mut Memory<'_>, wants: &[Want], answer: &mut [u8]) -> Taken
    ensures words { words memory.new ≡ (take_counted memory.old.limits wants.now (words memory.old)).slices }
    ensures same { Same memory.old memory.new }
    ensures answer { tally answer.new result ≡ told (take_counted memory.old.limits wants.now (words memory.old)).parts answer.old }
{
    let taken = count_each(memory, wants, answer);
    let _ = LotLine::begin(answer, u64::from(taken.lines));
    taken
}
