ghost use Rattle.std.specs.Prelude.{◌≡◌, ◌∷◌};
ghost use Rattle.fields.specs.Bytes.{all_fields};
ghost use Rattle.fields.specs.Written.{wrote, written, row_written};
ghost use Rattle.wire.specs.Calls.{bytes_of_call};
ghost use Rattle.wire.specs.Said.{said, kind_number};

use crate::recipe::write_recipe;
use crate::{Call, CallKind};
use fields::put_fields;

// A kind and the fields of a call.
pub(crate) fn put<const N: usize>(out: &mut [u8], kind: CallKind, fields: [u64; N]) -> Option<usize>
    ensures { wrote result out.new ≡ written (kind_number kind ∷ all_fields fields.entry) out.old }
{
    put_fields(out, kind.into(), fields)
}

// A line for each call, its kind beside it; a method for the kind would name each call once more.
/// Writes a call, and answers its length; nothing where it does not fit, or where a recipe's bytes are not whole parts, 255 at most.
pub fn write_call(call: Call, out: &mut [u8]) -> Option<usize>
    ensures { wrote result out.new ≡ row_written (bytes_of_call (said call.entry)) out.old }
{
    match call {
        Call::Buys(item, pieces, price) => put(out, CallKind::Buys, [item, pieces, price]),
        Call::Sells(item, pieces, price) => put(out, CallKind::Sells, [item, pieces, price]),
        Call::Comes(order, pieces) => put(out, CallKind::Comes, [order, pieces]),
        Call::Goes(order, pieces) => put(out, CallKind::Goes, [order, pieces]),
        Call::BilledBy(order, pieces, sum) => put(out, CallKind::BilledBy, [order, pieces, sum]),
        Call::Bills(order, pieces) => put(out, CallKind::Bills, [order, pieces]),
        Call::PaysOut(amount) => put(out, CallKind::PaysOut, [amount]),
        Call::PaysIn(amount) => put(out, CallKind::PaysIn, [amount]),
        Call::MadeOf(item, parts) => write_recipe(item, parts, out),
        Call::Makes(item, pieces) => put(out, CallKind::Makes, [item, pieces]),
        Call::Counted(item, pieces) => put(out, CallKind::Counted, [item, pieces]),
        Call::StockOf(item) => put(out, CallKind::StockOf, [item]),
        Call::Account(account) => put(out, CallKind::Account, [account]),
        Call::Order(order) => put(out, CallKind::Order, [order]),
        Call::LotsOf(item) => put(out, CallKind::LotsOf, [item]),
        Call::EntriesFrom(first, count) => put(out, CallKind::EntriesFrom, [first, count]),
    }
}
