//! The questions that are answered line by line: the lots of an item, along its row, and entries by their numbers. They are exact on any memory.

#![tactic(auto)]

mod entries;
mod listing;

pub use entries::write_entries;
pub use listing::{line, write_lots};
