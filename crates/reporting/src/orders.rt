//! The table of orders.

ghost use Rattle.std.specs.Prelude.{◌≡◌, ◌++◌, OnOk, string_bytes};
ghost use Rattle.reporting.specs.Columns.{aligned};
ghost use Rattle.reporting.specs.Shown.{order_shown, orders_seen};
ghost use Rattle.reporting.specs.Tables.{kind, order_row};
ghost use Rattle.session.specs.Means.{order_of};

use crate::columns::Cell;
use layout::Counter;
use memory::View;
use records::Order;
use std::alloc::AllocError;

// What an order is, in its column, see `heavier`.
#[tactic(auto, unfolding(crate::specs::Columns::aligned))]
fn kind(order: Order) -> &'static str
    ensures { result.now ≡ aligned 6 (kind (order_of order)) }
{
    if order.sells { "  sells" } else { "   buys" }
}

#[tactic(auto, unfolding(crate::specs::Tables::order_row))]
fn put_row(out: &mut String, number: u32, order: Order) -> Result<(), AllocError>
    ensures { OnOk result (string_bytes out.new ≡ string_bytes out.old ++ order_row number (order_of order)) }
{
    writeln!(
        out,
        "{}{}{}{}{}{}{}",
        Cell(6, u64::from(number)),
        kind(order),
        Cell(6, u64::from(order.item)),
        Cell(8, u64::from(order.pieces)),
        Cell(8, u64::from(order.price)),
        Cell(8, u64::from(order.moved)),
        Cell(8, u64::from(order.billed))
    )
}

// A loop of its own, see `accounts.rt`.
/// Appends the table of orders: all of them.
pub fn put_orders(out: &mut String, view: View<'_>) -> Result<(), AllocError>
    ensures { OnOk result (string_bytes out.new ≡ string_bytes out.old ++ orders_seen view.entry.limits view.entry.narrow.now) }
{
    out.push_str("orders\n number   kind   item   pieces    price    moved   billed\n")?;
    for number in 0..view.count(Counter::Orders) {
        put_row(out, number, view.order(number))?;
    }
    Ok(())
}
