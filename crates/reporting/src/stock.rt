//! The table of stock.

ghost use Rattle.std.specs.Prelude.{◌≡◌, ◌++◌, OnOk, string_bytes};
ghost use Rattle.memory.specs.Lent.{seen};
ghost use Rattle.reporting.specs.Shown.{stock_shown, stock_seen};
ghost use Rattle.reporting.specs.Tables.{stock_row};

use crate::columns::Cell;
use memory::View;
use std::alloc::AllocError;

// Appends the row of an item that has pieces.
#[tactic(auto, unfolding(crate::specs::Tables::stock_row))]
fn put_row(out: &mut String, item: u32, pieces: u64, worth: u64) -> Result<(), AllocError>
    ensures { OnOk result (string_bytes out.new ≡ string_bytes out.old ++ stock_row item pieces worth) }
{
    if pieces == 0 {
        return Ok(());
    }
    let item = u64::from(item);
    writeln!(
        out,
        "{}{}{}",
        Cell(6, item),
        Cell(15, pieces),
        Cell(15, worth)
    )
}

// Appends what is on hand of an item.
fn put_item(out: &mut String, view: View<'_>, item: u32) -> Result<(), AllocError>
    ensures { OnOk result (string_bytes out.new ≡ string_bytes out.old ++ stock_shown view.entry.limits (seen view.entry) item) }
{
    let Ok((pieces, worth)) = rules::stock_of(view, u64::from(item)) else {
        return Ok(());
    };
    put_row(out, item, pieces, worth)
}

// A loop of its own, see `accounts.rt`.
/// Appends the table of stock: each item that has pieces.
pub fn put_stock(out: &mut String, view: View<'_>) -> Result<(), AllocError>
    ensures { OnOk result (string_bytes out.new ≡ string_bytes out.old ++ stock_seen view.entry.limits (seen view.entry)) }
{
    out.push_str("stock\n   item          pieces            cost\n")?;
    for item in 0..view.limits.items {
        put_item(out, view, item)?;
    }
    Ok(())
}
