//! The table of accounts.

ghost use Rattle.std.specs.Prelude.{◌≡◌, ◌++◌, OnOk, string_bytes};
ghost use Rattle.memory.specs.Lent.{seen};
ghost use Rattle.records.specs.Accounts.{number_of};
ghost use Rattle.reporting.specs.Columns.{aligned};
ghost use Rattle.reporting.specs.Shown.{account_shown, accounts_seen};
ghost use Rattle.reporting.specs.Tables.{side, account_row};

use crate::columns::Cell;
use memory::View;
use records::Account;
use std::alloc::AllocError;
use std::cmp::Ordering;

// The side that is more, in its column. By `{:>6}` the proof does not close, which knows the width of numbers alone.
#[tactic(auto, unfolding(crate::specs::Columns::aligned))]
fn heavier(left: u64, right: u64) -> &'static str
    ensures { result.now ≡ aligned 6 (side left right) }
{
    match left.cmp(&right) {
        Ordering::Greater => "   left",
        Ordering::Less => "  right",
        Ordering::Equal => "   even",
    }
}

#[tactic(auto, unfolding(crate::specs::Tables::account_row))]
fn put_row(out: &mut String, account: Account, left: u64, right: u64) -> Result<(), AllocError>
    ensures { OnOk result (string_bytes out.new ≡ string_bytes out.old ++ account_row (number_of account) left right) }
{
    let side = heavier(left, right);
    writeln!(
        out,
        "{}{}{}{}{side}  {account}",
        Cell(6, u32::from(account).into()),
        Cell(16, left),
        Cell(16, right),
        Cell(16, left.abs_diff(right))
    )
}

// Appends what stands on both sides of an account.
fn put_account(out: &mut String, view: View<'_>, account: Account) -> Result<(), AllocError>
    ensures { OnOk result (string_bytes out.new ≡ string_bytes out.old ++ account_shown view.entry.limits (seen view.entry) (number_of account)) }
{
    let Ok((left, right)) = rules::account(view, u32::from(account).into()) else {
        return Ok(());
    };
    put_row(out, account, left, right)
}

// A loop of its own, as each table has: a shared one would take a closure and a clause on what its calls append.
/// Appends the table of accounts: all of them.
pub fn put_accounts(out: &mut String, view: View<'_>) -> Result<(), AllocError>
    ensures { OnOk result (string_bytes out.new ≡ string_bytes out.old ++ accounts_seen view.entry.limits (seen view.entry)) }
{
    out.push_str(
        "accounts\n number             left            right          balance   side  name\n",
    )?;
    for account in Account::ALL {
        put_account(out, view, account)?;
    }
    Ok(())
}
