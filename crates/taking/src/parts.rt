//! A part of a lot, and what is left of it.

ghost use Rattle.std.specs.Prelude.{◌≡◌, ◌<◌, ◌≤◌};
ghost use Rattle.taking.specs.Parts.{share as share-of, part_of, rest_of};

use records::Lot;

// What some pieces of a lot cost: its cost by its pieces, rounded down.
fn share(cost: u64, pieces: u64, of: u64) -> u64
    requires { pieces < of }
    ensures { result ≡ share-of cost pieces of }
{
    cost.saturating_mul(pieces) / of
}

/// What is taken of a lot where so many pieces are wanted: the whole lot, or these with their share of its cost.
#[tactic(auto, unfolding(crate::specs::Parts::part_of))]
pub fn part_of(lot: Lot, wanted: u64) -> Lot
    ensures value { result ≡ part_of lot wanted }
    ensures few { result.pieces ≤ wanted }
{
    if u64::from(lot.pieces) <= wanted {
        return lot;
    }
    Lot {
        pieces: wanted as u32,
        cost: share(lot.cost, wanted, u64::from(lot.pieces)),
        ..lot
    }
}

/// What is left of a lot that gave a part.
pub fn rest_of(lot: Lot, part: Lot) -> Lot
    ensures { result ≡ rest_of lot part }
{
    Lot {
        pieces: lot.pieces.saturating_sub(part.pieces),
        cost: lot.cost.saturating_sub(part.cost),
        ..lot
    }
}
