//! Questions: what lies on hand, what stands on an account, how far an order is.

ghost use Rattle.std.specs.Prelude.{◌≡◌};
ghost use Rattle.rules.specs.Asking.{stock_told, account_told, order_told};
ghost use Rattle.rules.specs.Outcome.{paired};

use crate::checks::{known_account, known_item, known_order};
use crate::refused::Refused;
use memory::View;
use wire::Refusal;

// Two numbers each, as they are answered, and no struct of each kind.
/// Pieces and cost of an item.
pub fn stock_of(view: View<'_>, item: u64) -> Result<(u64, u64), Refused>
    ensures { paired result ≡ stock_told view.entry.limits item view.entry.wide.now }
{
    let Some(item) = known_item(view.limits, item) else {
        return Err(Refused::first(Refusal::BadField));
    };
    let stock = view.stock(item);
    Ok((stock.pieces, stock.worth))
}

/// Both sides of an account.
pub fn account(view: View<'_>, account: u64) -> Result<(u64, u64), Refused>
    ensures { paired result ≡ account_told account view.entry.wide.now }
{
    let Some(account) = known_account(account) else {
        return Err(Refused::first(Refusal::BadField));
    };
    let balance = view.balance(account);
    Ok((balance.left, balance.right))
}

/// Pieces moved and billed of an order.
pub fn order(view: View<'_>, order: u64) -> Result<(u64, u64), Refused>
    ensures { paired result ≡ order_told view.entry.limits order view.entry.narrow.now }
{
    let Some(number) = known_order(view, order) else {
        return Err(Refused::first(Refusal::NoSuchOrder));
    };
    let known = view.order(number);
    Ok((u64::from(known.moved), u64::from(known.billed)))
}
