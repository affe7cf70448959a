//! The programs that answer calls: what they do with what their arguments ask for, what they write, and books that last in a journal.

#![tactic(auto)]

mod asking;
mod failure;
mod journal_file;
mod keeper;
mod kept;
mod lock;
mod program;
mod trouble;
mod typing;

pub use failure::Failure;
pub use program::Program;
pub use trouble::Trouble;
