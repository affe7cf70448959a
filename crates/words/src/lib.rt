//! Words, marks and numbers in a line of text, and numbers as text.

#![tactic(auto)]

mod decimals;
mod numerals;
mod readers;
mod spans;

pub use decimals::{put_number, put_numbers};
pub use numerals::value;
pub use readers::{read_end, read_mark, read_number, read_word, same};
pub use spans::{first_word, skip_blanks};
