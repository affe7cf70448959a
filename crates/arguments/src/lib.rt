//! What the arguments of a program ask for: options that widen the books, a journal that they last in, and a file of calls.

#![tactic(auto)]

mod limit;
mod misuse;
mod request;

pub use limit::Limit;
pub use misuse::Misuse;
pub use request::{Request, Wanted, usual_limits};
