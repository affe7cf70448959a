//! Calls and answers as lines of text: a text of calls in, the answers out.

#![tactic(auto)]

mod answering;
mod books;
mod fate;
mod laws;
mod lines;
mod running;
mod streaming;
mod tally;

pub use books::Books;
pub use fate::Fate;
pub use laws::{line_by_line_stands, tally_counts_stands};
pub use running::run;
pub use session::RunError;
pub use streaming::StreamError;
pub use tally::{REFUSALS, Tally};
