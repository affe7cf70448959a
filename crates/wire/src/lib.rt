//! Calls and answers as bytes.
//!
//! A call's first byte is its number, the place of its case in `CallKind`; its fields have eight bytes each, the low byte first. A recipe has its item, its
//! count of parts in one byte, and two fields for each part: item and pieces. Bytes that are no call are named by the place of the first that does
//! not fit: 0 for no bytes or an unknown number, the length where bytes are missing, the expected length where there are too many.
//!
//! An answer's first byte is its kind, everything after it has eight bytes, counts too: 0, a refusal's number and a place; 1 and a number; 2 and two
//! numbers; 3, a count and lots (item, pieces, cost, document); 4, a count and entries (left, right, amount, document).

#![tactic(auto)]

mod answer;
mod answer_kind;
mod answer_reading;
mod answer_writing;
mod call;
mod call_kind;
mod call_reading;
mod call_writing;
mod laws;
mod line;
mod lines;
mod recipe;
mod refusal;
mod row;
mod unknown_number;

pub use answer::Answer;
pub use answer_kind::AnswerKind;
pub use answer_reading::read_answer;
pub use answer_writing::{write, write_number, write_refusal, write_two};
pub use call::Call;
pub use call_kind::CallKind;
pub use call_reading::read;
pub use call_writing::write_call;
pub use laws::{
    answer_comes_back_stands, answer_is_bytes_stands, answers_fit_stands, call_comes_back_stands,
    calls_apart_stands, lists_compose_stands, one_reading_stands,
};
pub use line::Line;
pub use lines::{EntryLine, LotLine, RecipePart};
pub use recipe::{MOST_PARTS, RECIPE_HEAD, are_parts};
pub use refusal::Refusal;
pub use row::Row;
pub use unknown_number::UnknownNumber;
