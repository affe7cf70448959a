//! The words that begin a call, and what stands after them.

#![tactic(auto)]

mod first_words;
mod form;

pub use first_words::read_opening;
pub use form::Form;
