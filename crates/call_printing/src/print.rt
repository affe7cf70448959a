//! A call as a line of text.

ghost use Rattle.std.specs.Prelude.{◌≡◌, ◌++◌, OnOk};
ghost use Rattle.wire.specs.Said.{said};
ghost use Rattle.call_lines.specs.Written.{line_of_call};
ghost use Rattle.call_printing.specs.Recipes.{recipe_line};

use crate::numbers::put_words;
use crate::recipes::put_parts;
use std::alloc::AllocError;
use wire::{Call, are_parts};

// Appends a recipe; nothing where its parts are not whole, or more than a recipe can have.
fn print_recipe(out: &mut Vec<u8>, item: u64, parts: &[u8]) -> Result<(), AllocError>
    ensures { OnOk result (out.new.items ≡ out.old.items ++ recipe_line item parts.now) }
{
    if !are_parts(parts) {
        return Ok(());
    }
    put_words(out, b"made of ", &[item])?;
    out.extend_from_slice(b":")?;
    put_parts(out, parts)?;
    Ok(())
}

// Not `Display` of a wrapper: the text goes into bytes, not into a `String`. The words are not shared with `openings`, which reads them one by one.
/// Appends the line of a call; nothing of a recipe whose bytes are no parts. An `Err` only for want of memory.
pub fn print_call(out: &mut Vec<u8>, call: Call<'_>) -> Result<(), AllocError>
    ensures { OnOk result (out.new.items ≡ out.old.items ++ line_of_call (said call.entry)) }
{
    match call {
        Call::Buys(a, b, c) => put_words(out, b"buys ", &[a, b, c])?,
        Call::Sells(a, b, c) => put_words(out, b"sells ", &[a, b, c])?,
        Call::Comes(a, b) => put_words(out, b"comes ", &[a, b])?,
        Call::Goes(a, b) => put_words(out, b"goes ", &[a, b])?,
        Call::BilledBy(a, b, c) => put_words(out, b"billed by ", &[a, b, c])?,
        Call::Bills(a, b) => put_words(out, b"bills ", &[a, b])?,
        Call::PaysOut(a) => put_words(out, b"pays out ", &[a])?,
        Call::PaysIn(a) => put_words(out, b"pays in ", &[a])?,
        Call::MadeOf(item, parts) => print_recipe(out, item, parts)?,
        Call::Makes(a, b) => put_words(out, b"makes ", &[a, b])?,
        Call::Counted(a, b) => put_words(out, b"counted ", &[a, b])?,
        Call::StockOf(a) => put_words(out, b"stock of ", &[a])?,
        Call::Account(a) => put_words(out, b"account ", &[a])?,
        Call::Order(a) => put_words(out, b"order ", &[a])?,
        Call::LotsOf(a) => put_words(out, b"lots of ", &[a])?,
        Call::EntriesFrom(a, b) => put_words(out, b"entries from ", &[a, b])?,
    }
    Ok(())
}
