//! Pieces taken from an item's lots, the oldest first: what they would cost, and the taking itself. Each function is exact on any memory;
//! the laws say what it means for the lots of the books.

#![tactic(auto)]

ghost use Rattle.taking.specs.Laws.{TakingLaws};

mod costs;
mod oldest;
mod parts;
mod takes;
mod wants;

pub use costs::cost_of;
pub use takes::{take_all, take_counted};
pub use wants::{Taken, Want};

/// What both functions mean on memory that stands for books: they cost, leave and write what taking does in the books, lose no piece and no cent, and
/// leave what is younger than a lot that is left.
#[tactic(auto, using(crate::proofs::TakingLaws::taking_laws))]
pub fn taking_stands()
    ensures { TakingLaws }
{}
