//! A whole report, from a text of calls.

ghost use Rattle.std.specs.Prelude.{◌≡◌, true, ◌++◌, codes, MatchResult, OnOk, string_bytes};
ghost use Rattle.layout.specs.Layout.{is_good};
ghost use Rattle.memory.specs.Lent.{seen};
ghost use Rattle.reporting.specs.Report.{reported};
ghost use Rattle.reporting.specs.Shown.{tables_seen};
ghost use Rattle.text.specs.Run.{failure};

use crate::accounts::put_accounts;
use crate::calls::put_tally;
use crate::orders::put_orders;
use crate::stock::put_stock;
use layout::Limits;
use memory::View;
use std::alloc::{AllocError, Global};
use text::{Books, RunError};

// Appends the tables, with an empty line behind each.
#[tactic(auto, unfolding(crate::specs::Shown::tables_seen))]
fn put_tables(out: &mut String, view: View<'_>) -> Result<(), AllocError>
    ensures { OnOk result (string_bytes out.new ≡ string_bytes out.old ++ tables_seen view.entry.limits (seen view.entry)) }
{
    put_stock(out, view)?;
    writeln!(out)?;
    put_accounts(out, view)?;
    writeln!(out)?;
    put_orders(out, view)?;
    writeln!(out)
}

/// What is reported for a text of calls: stock, accounts and orders as new books of these limits have them after the last call, and how many calls
/// were taken and turned away.
pub fn report(heap: Global, limits: Limits, text: &[u8]) -> Result<Vec<u8>, RunError>
    ensures { MatchResult result (λ v. (is_good limits ≡ true) × (v.items ≡ reported limits text.now)) (λ e. e ≡ failure limits) }
{
    let mut books = Books::open(heap, limits)?;
    let mut answers = Vec::new(heap);
    books.answer(text, &mut answers)?;
    let mut out = String::new(heap);
    put_tables(&mut out, books.view())?;
    put_tally(&mut out, &books.tally())?;
    Ok(out.into_bytes())
}
