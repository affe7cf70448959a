//! The records of the books as structs by value, each read from and written to rows of words at any address of any memory:
//! where a row of a record is not wholly there, the record of nothing is read, and no word is written.

#![tactic(auto)]

ghost use Rattle.records.specs.Kinds.{RecordLaws};

mod account;
mod balance;
mod entry;
mod lot;
mod order;
mod part;
mod recipe;
mod record;
mod split_record;
mod stock;
mod words;

pub use account::{Account, accounts_in_order_stands};
pub use balance::Balance;
pub use entry::Entry;
pub use lot::Lot;
pub use order::Order;
pub use part::Part;
pub use recipe::Recipe;
pub use record::Record;
pub use split_record::SplitRecord;
pub use stock::Stock;

/// The laws of getting after putting, for each kind of record.
#[tactic(auto, using(crate::proofs::Laws::record_laws))]
pub fn records_stand()
    ensures { RecordLaws }
{}
