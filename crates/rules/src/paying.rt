//! Payments to suppliers, and by customers.

ghost use Rattle.std.specs.Prelude.{◌≡◌};
ghost use Rattle.layout.specs.declared.head.Total.TheVariants.{Documents};
ghost use Rattle.memory.specs.Books.{total_of};
ghost use Rattle.memory.specs.Lent.{seen, words, Same};
ghost use Rattle.records.specs.Accounts.{number_of};
ghost use Rattle.rules.specs.Checks.{if};
ghost use Rattle.rules.specs.Outcome.{outcome, numbered};
ghost use Rattle.rules.specs.Paying.{paid, pays_fits, pays, pays_out, pays_in};

use crate::checks::{enters, next_document, owed, some_money};
use crate::entering::enter;
use crate::refused::Refused;
use crate::totals::raise;
use layout::Total;
use memory::{Memory, View};
use records::{Account, Entry};
use wire::Refusal;

// The next document's number, if a payment of this amount is within the limits.
fn fits(view: View<'_>, amount: u64) -> Option<u64>
    ensures { result ≡ if (pays_fits view.entry.limits amount (seen view.entry)) (total_of Documents view.entry.wide.now) }
{
    if !enters(view, amount) {
        return None;
    }
    next_document(view)
}

// Enters a payment, which is a document.
#[tactic(auto, unfolding(crate::specs::Paying::paid))]
fn paid(memory: &mut Memory<'_>, left: Account, right: Account, amount: u64, document: u64)
    ensures words { words memory.new ≡ paid memory.old.limits (number_of left) (number_of right) amount document (words memory.old) }
    ensures same { Same memory.old memory.new }
{
    let entry = Entry {
        left: left.into(),
        right: right.into(),
        amount,
        document,
    };
    enter(memory, entry);
    raise(memory, Total::Booked, amount);
    raise(memory, Total::Documents, 1);
}

// Enters a payment that is within the limits: the document's number, or why it is refused.
fn pays(memory: &mut Memory<'_>, left: Account, right: Account, amount: u64) -> Result<u64, Refused>
    ensures outcome { outcome (numbered result) (words memory.new) ≡ pays memory.old.limits (number_of left) (number_of right) amount (words memory.old) }
    ensures same { Same memory.old memory.new }
{
    let Some(document) = fits(memory.view(), amount) else {
        return Err(Refused::first(Refusal::OverLimits));
    };
    paid(memory, left, right, amount, document);
    Ok(document)
}

/// A payment to suppliers, at most what is owed to them: the document's number, or why it is refused.
pub fn pays_out(memory: &mut Memory<'_>, amount: u64) -> Result<u64, Refused>
    ensures outcome { outcome (numbered result) (words memory.new) ≡ pays_out memory.old.limits amount (words memory.old) }
    ensures same { Same memory.old memory.new }
{
    let Some(amount) = some_money(amount) else {
        return Err(Refused::first(Refusal::BadField));
    };
    let Some(amount) = owed(memory.view(), amount) else {
        return Err(Refused::first(Refusal::TooMany));
    };
    pays(memory, Account::Suppliers, Account::Bank, amount)
}

/// A payment by customers: the document's number, or why it is refused.
pub fn pays_in(memory: &mut Memory<'_>, amount: u64) -> Result<u64, Refused>
    ensures outcome { outcome (numbered result) (words memory.new) ≡ pays_in memory.old.limits amount (words memory.old) }
    ensures same { Same memory.old memory.new }
{
    let Some(amount) = some_money(amount) else {
        return Err(Refused::first(Refusal::BadField));
    };
    pays(memory, Account::Bank, Account::Customers, amount)
}
