//! The bytes of answers to text.

#![tactic(auto)]

mod error;
mod quads;
mod show;

pub use error::ShowError;
pub use show::{answers_shown_stands, put_refusal, show_answer};
