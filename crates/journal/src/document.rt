//! The line of a document.

ghost use Rattle.std.specs.Prelude.{◌≡◌, ◌++◌, OnOk};
ghost use Rattle.firm.specs.Journal.{is_question};
ghost use Rattle.wire.specs.Calls.{call_of};
ghost use Rattle.wire.specs.Said.{said};
ghost use Rattle.journal.specs.Documents.{kept_line};

use call_printing::print_call;
use std::alloc::AllocError;
use wire::{Call, are_parts};

// Whether a call is a question. A recipe of bytes that are no parts is no call, and counts as one.
#[tactic(auto, unfolding(firm::specs::Journal::is_question))]
fn is_question(call: Call<'_>) -> bool
    ensures { result ≡ is_question (said call.entry) }
{
    match call {
        Call::StockOf(_)
        | Call::Account(_)
        | Call::Order(_)
        | Call::LotsOf(_)
        | Call::EntriesFrom(_, _) => true,
        Call::MadeOf(_, parts) => !are_parts(parts),
        _ => false,
    }
}

/// Appends the line of a call that was taken, given by its bytes, unless it is a question.
#[tactic(auto, unfolding(firm::specs::Journal::is_question))]
pub fn put_document(kept: &mut Vec<u8>, row: &[u8]) -> Result<(), AllocError>
    ensures { OnOk result (kept.new.items ≡ kept.old.items ++ kept_line (call_of row.now)) }
{
    let Ok(call) = wire::read(row) else {
        return Ok(());
    };
    if is_question(call) {
        return Ok(());
    }
    print_call(kept, call)?;
    kept.push(b'\n')?;
    Ok(())
}
