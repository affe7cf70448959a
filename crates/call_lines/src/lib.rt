//! Lines of text to the bytes of calls.

#![tactic(auto)]

mod error;
mod laws;
mod lines;
mod numbers;
mod operands;
mod recipes;
mod rows;
mod stop;

pub use error::LineError;
pub use laws::{line_comes_back_stands, lines_readable_stands, places_at_words_stands};
pub use lines::read_line;
