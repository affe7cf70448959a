//! The session: books opened and called on memory that the caller lends.

#![tactic(auto)]

mod boundary;
mod calling;
mod error;
mod exports;
mod held;
mod opening;
mod promises;
mod rows;
mod running;
mod short;

pub use boundary::limits_from;
pub use calling::call;
pub use error::RunError;
pub use exports::{books_answer, books_call, books_narrow, books_open, books_wide};
pub use held::Held;
pub use opening::open;
pub use promises::{
    answers_are_right, entries_are_kept, ledger_agrees, memory_suffices, refusals_keep,
};
pub use rows::rows_come_back_stands;
pub use running::run;
