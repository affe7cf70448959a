//! The meaning of the books: what lies in stock, what stands in the ledger, and what calls are answered, as definitions in specs/
//! that go through everything each time. The code here only names the theorems about them, so that each has to be proved.

#![tactic(auto)]

mod examples;
mod journal;
mod laws;
mod promises;
mod statements;

pub use examples::worked_books_stands;
pub use journal::journal_stands;
pub use laws::{
    lacking_is_stands, lots_come_to_stock_stands, lots_small_stands, orders_known_stands,
    products_small_stands, reached_fits_stands,
};
pub use promises::{Keeps, enough_memory_by_steps, refusal_keeps_by_steps, right_by_steps};
pub use statements::{
    balanced_stands, counted_there_stands, entries_stay_stands, in_three_ways_stands,
    made_costs_stands, oldest_first_stands, open_orders_stands, recipe_taking_keeps_stands,
    taking_keeps_stands, turned_away_stands,
};
