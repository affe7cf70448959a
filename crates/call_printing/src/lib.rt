//! Calls to lines of text.

#![tactic(auto)]

mod numbers;
mod print;
mod recipes;

pub use print::print_call;
