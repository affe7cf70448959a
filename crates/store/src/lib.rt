//! What is kept: lots by age for each item, orders by item, entries by account, recipes, sums of items and accounts. Each
//! function is exact on any memory; the laws say what it means for the lists of lots, orders and entries and for the sums.

#![tactic(auto)]

ghost use Rattle.store.specs.Laws.{StoreLaws};

mod entries;
mod lots;
mod orders;
mod recipes;
mod refusal;
mod rows;
mod sums;

pub use entries::{add_entry, entry_after, first_entry, nth_entry};
pub use lots::{add_lot, first_lot, free_lot, lot_after, nth_lot, remove_lot};
pub use orders::{add_order, first_order, nth_order, order_after, set_order};
pub use recipes::{add_part, add_recipe};
pub use refusal::Refusal;
pub use sums::{count_in, count_out, post};

/// What each function means for the lists of lots, orders, entries and parts and for the sums: it changes what it is about, and no other.
#[tactic(auto, using(crate::proofs::Opening::store_laws))]
pub fn store_stands()
    ensures { StoreLaws }
{}
