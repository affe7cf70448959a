//! A report on books: stock, accounts, orders, and how many calls were taken and turned away.

#![tactic(auto)]

mod accounts;
mod calls;
mod columns;
mod orders;
mod stock;
mod whole;

pub use whole::report;
