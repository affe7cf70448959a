//! Goods that go on an order to sell.

ghost use Rattle.std.specs.Prelude.{◌≡◌, MatchResult};
ghost use Rattle.firm.specs.Calls.{lots};
ghost use Rattle.layout.specs.declared.head.Total.TheVariants.{Documents};
ghost use Rattle.memory.specs.Books.{total_of};
ghost use Rattle.memory.specs.Lent.{seen, words, Same};
ghost use Rattle.taking.specs.Takes.{cost_taken, tally, told};
ghost use Rattle.rules.specs.Checks.{if};
ghost use Rattle.rules.specs.Going.{gone_of, gone, issued, goods_fit, goes};
ghost use Rattle.rules.specs.Outcome.{outcome, told_by};

use crate::checks::{
    enters, known_order, moves, next_document, on_hand, room, some_pieces, to_sell,
};
use crate::entering::enter;
use crate::refused::Refused;
use crate::totals::{lower, raise};
use layout::Total;
use memory::{Memory, View};
use records::{Account, Entry, Order};
use taking::{Taken, Want};
use wire::Refusal;

/// The next document's number, if what is wanted can go. It costs no more than all that lies there of its item: only where that is too much
/// is its own cost found beforehand, which takes a walk along the lots.
#[inline(always)]
pub fn goods_fit(view: View<'_>, want: Want) -> Option<u64>
    ensures { result ≡ if (goods_fit view.entry.limits want (seen view.entry)) (total_of Documents view.entry.wide.now) }
{
    let worth = view.stock(want.item).worth;
    if !room(view, 1, worth) && !enters(view, taking::cost_of(view, want)) {
        return None;
    }
    next_document(view)
}

// The order that has moved takes its place, and what is wanted is taken and told in the answer.
fn take(memory: &mut Memory<'_>, number: u32, moved: Order, want: Want, answer: &mut [u8]) -> Taken
    ensures words { words memory.new ≡ (gone_of memory.old.limits number moved want (words memory.old)).slices }
    ensures same { Same memory.old memory.new }
    ensures answer { tally answer.new result ≡ told (gone_of memory.old.limits number moved want (words memory.old)).parts answer.old }
    ensures cost { result.cost ≡ cost_taken (gone_of memory.old.limits number moved want (words memory.old)) }
{
    let _ = store::set_order(memory, number, moved);
    taking::take_all(memory, &[want], answer)
}

/// Enters what went on the left of an account, on memory that has it no more, and counts it out for its item.
#[tactic(auto, unfolding(crate::specs::Going::issued))]
#[inline(always)]
pub fn issued(memory: &mut Memory<'_>, account: Account, want: Want, cost: u64, document: u64)
    ensures words { words memory.new ≡ issued memory.old.limits account want cost document (words memory.old) }
    ensures same { Same memory.old memory.new }
{
    store::count_out(memory, want.item, want.pieces, cost);
    let entry = Entry {
        left: account.into(),
        right: Account::Stock.into(),
        amount: cost,
        document,
    };
    enter(memory, entry);
    lower(memory, Total::Worth, cost);
    raise(memory, Total::Booked, cost);
    raise(memory, Total::Documents, 1);
}

/// So many pieces go of an order to sell: what was taken of which lots, which the answer tells, or why it is refused.
pub fn goes(
    memory: &mut Memory<'_>,
    order: u64,
    pieces: u64,
    answer: &mut [u8],
) -> Result<Taken, Refused>
    ensures outcome { outcome (told_by (λ taken. lots (gone memory.old.limits order pieces (words memory.old)).parts) result) (words memory.new) ≡ goes memory.old.limits order pieces (words memory.old) }
    ensures same { Same memory.old memory.new }
    ensures answer { MatchResult result (λ taken. tally answer.new taken ≡ told (gone memory.old.limits order pieces (words memory.old)).parts answer.old) (λ refused. answer.new ≡ answer.old) }
{
    let Some(pieces) = some_pieces(pieces) else {
        return Err(Refused::first(Refusal::BadField));
    };
    let Some(number) = known_order(memory.view(), order) else {
        return Err(Refused::first(Refusal::NoSuchOrder));
    };
    let order = memory.view().order(number);
    let Some(order) = to_sell(order) else {
        return Err(Refused::first(Refusal::OtherKind));
    };
    let Some(moved) = moves(order, pieces) else {
        return Err(Refused::second(Refusal::TooMany));
    };
    let Some(_there) = on_hand(memory.view(), order.item, pieces) else {
        return Err(Refused::second(Refusal::NotOnHand));
    };
    let want = Want {
        item: order.item,
        pieces: u64::from(pieces),
    };
    let Some(document) = goods_fit(memory.view(), want) else {
        return Err(Refused::first(Refusal::OverLimits));
    };
    let taken = take(memory, number, moved, want, answer);
    issued(memory, Account::CostOfSales, want, taken.cost, document);
    Ok(taken)
}
