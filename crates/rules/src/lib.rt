//! The rules of the books: for each call the checks in their order, which only read, and then its steps, which only write.
//! A call that is refused leaves every word as it was. A check is a `let .. else` of its own, as the project asks, with its
//! refusal beside it: the rule as an office would read it.

#![tactic(auto)]

mod asking;
mod billing;
mod checks;
mod counting;
mod entering;
mod going;
mod making;
mod ordering;
mod paying;
mod receiving;
mod recipes;
mod refused;
mod totals;

pub use asking::{account, order, stock_of};
pub use billing::{billed_by, bills};
pub use checks::{known_item, some_entries};
pub use counting::counted;
pub use going::goes;
pub use making::makes;
pub use ordering::{buys, sells};
pub use paying::{pays_in, pays_out};
pub use receiving::comes;
pub use recipes::made_of;
pub use refused::Refused;
