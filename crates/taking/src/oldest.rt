//! A lot gives a part of its pieces.

ghost use Rattle.std.specs.Prelude.{◌≡◌};
ghost use Rattle.memory.specs.Books.{put_lot};
ghost use Rattle.memory.specs.Lent.{words, Same};
ghost use Rattle.taking.specs.Parts.{part_of, rest_of};

use crate::parts::{part_of, rest_of};
use memory::Memory;
use records::Lot;

/// Takes what is wanted of the lot in a cell: that part of it. What is left of the lot takes its place.
#[inline(always)]
pub fn take_part(memory: &mut Memory<'_>, cell: u32, lot: Lot, wanted: u64) -> Lot
    ensures value { result ≡ part_of lot wanted }
    ensures words { words memory.new ≡ put_lot memory.old.limits cell (rest_of lot (part_of lot wanted)) (words memory.old) }
    ensures same { Same memory.old memory.new }
{
    let part = part_of(lot, wanted);
    memory.put_lot(cell, rest_of(lot, part));
    part
}
