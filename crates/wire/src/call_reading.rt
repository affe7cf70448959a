ghost use Rattle.std.specs.Prelude.{◌≡◌};
ghost use Rattle.wire.specs.Calls.{call_as, call_of};
ghost use Rattle.wire.specs.Said.{heard, kind_number};

use crate::recipe::read_recipe;
use crate::{Call, CallKind};
use fields::fields;

// A line for each call, beside its kind. A call of so many fields, if they are the whole row. A closure would be plainer, but `map` tells nothing of one that takes an array.
macro_rules! call {
    ($call:path, $count:literal, [$($field:ident),+], $bytes:expr) => {{
        let [$($field),+] = fields::<$count>($bytes)?;
        Ok($call($($field),+))
    }};
}

fn read_as(kind: CallKind, bytes: &[u8]) -> Result<Call<'_>, usize>
    ensures { heard result ≡ call_as (kind_number kind) bytes.now }
{
    match kind {
        CallKind::Buys => call!(Call::Buys, 3, [item, pieces, price], bytes),
        CallKind::Sells => call!(Call::Sells, 3, [item, pieces, price], bytes),
        CallKind::Comes => call!(Call::Comes, 2, [order, pieces], bytes),
        CallKind::Goes => call!(Call::Goes, 2, [order, pieces], bytes),
        CallKind::BilledBy => call!(Call::BilledBy, 3, [order, pieces, sum], bytes),
        CallKind::Bills => call!(Call::Bills, 2, [order, pieces], bytes),
        CallKind::PaysOut => call!(Call::PaysOut, 1, [amount], bytes),
        CallKind::PaysIn => call!(Call::PaysIn, 1, [amount], bytes),
        CallKind::MadeOf => read_recipe(bytes),
        CallKind::Makes => call!(Call::Makes, 2, [item, pieces], bytes),
        CallKind::Counted => call!(Call::Counted, 2, [item, pieces], bytes),
        CallKind::StockOf => call!(Call::StockOf, 1, [item], bytes),
        CallKind::Account => call!(Call::Account, 1, [account], bytes),
        CallKind::Order => call!(Call::Order, 1, [order], bytes),
        CallKind::LotsOf => call!(Call::LotsOf, 1, [item], bytes),
        CallKind::EntriesFrom => call!(Call::EntriesFrom, 2, [first, count], bytes),
    }
}

/// The call that a row of bytes is, or the place where it ceases to be one.
pub fn read(bytes: &[u8]) -> Result<Call<'_>, usize>
    ensures { heard result ≡ call_of bytes.now }
{
    let number = bytes.first().ok_or(0usize)?;
    let kind = CallKind::try_from(*number).or(Err(0usize))?;
    read_as(kind, bytes)
}
