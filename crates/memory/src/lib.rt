//! The memory of the books: two lent slices, whose words are got and put by what they mean. Getters and putters are defined
//! on any memory: beyond the end of a slice nothing is read, and nothing is written.

#![tactic(auto)]

ghost use Rattle.memory.specs.Slots.{MemoryLaws};

mod counting;
mod error;
mod lent;
mod opening;
mod subjects;
mod sums;

pub use counting::limits_in;
pub use error::OpenError;
pub use lent::{Memory, View};
pub use opening::open;

/// The laws of getting after putting, for each subject and between them, and what opened books hold.
#[tactic(auto, using(crate::proofs::Laws::memory_laws))]
pub fn memory_stands()
    ensures { MemoryLaws }
{}
