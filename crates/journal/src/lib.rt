//! Books that last: the journal of their documents, and books that start again from it.

#![tactic(auto)]

mod document;
mod error;
mod first_line;
mod keeping;
mod laws;
mod replaying;
mod torn;

pub use error::ReplayError;
pub use first_line::{limits_in, put_first_line};
pub use keeping::answer_and_keep;
pub use laws::{first_line_comes_back_stands, lines_come_back_stands};
pub use replaying::replay;
pub use torn::finished;
