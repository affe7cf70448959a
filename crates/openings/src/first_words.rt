//! The words that begin a call, read one by one; `call_printing` writes them together, so that a table would serve neither.

ghost use Rattle.std.specs.Prelude.{◌≡◌};
ghost use Rattle.std.specs.Result.{result_map_both};
ghost use Rattle.openings.specs.Openings.{second as secondWord, paying, begins_other, begins, opening};

use wire::CallKind;
use words::{first_word, read_word, same, skip_blanks};

// A call whose first word asks for a second one.
fn read_second<'a>(
    line: &'a [u8],
    word: &[u8],
    kind: CallKind,
) -> Result<(CallKind, &'a [u8]), &'a [u8]>
    ensures { result_map_both (λ p. (p.0, p.1.now)) (λ x. x.now) result ≡ secondWord word.now kind line.now }
{
    let rest = read_word(line, word)?;
    Ok((kind, rest))
}

fn read_paying(line: &[u8]) -> Result<(CallKind, &[u8]), &[u8]>
    ensures { result_map_both (λ p. (p.0, p.1.now)) (λ x. x.now) result ≡ paying line.now }
{
    read_second(line, b"out", CallKind::PaysOut).or_else(|_| read_second(
        line,
        b"in",
        CallKind::PaysIn,
    ))
}

// By the first word: `at` begins with it, `rest` comes after it. Not `match word { b"makes" => .. }`: at its last arm a proof needs a case for each byte.
fn read_begins_other<'a>(
    word: &[u8],
    at: &'a [u8],
    rest: &'a [u8],
) -> Result<(CallKind, &'a [u8]), &'a [u8]>
    ensures { result_map_both (λ p. (p.0, p.1.now)) (λ x. x.now) result ≡ begins_other word.now at.now rest.now }
{
    if same(word, b"makes") {
        Ok((CallKind::Makes, rest))
    } else if same(word, b"counted") {
        Ok((CallKind::Counted, rest))
    } else if same(word, b"stock") {
        read_second(rest, b"of", CallKind::StockOf)
    } else if same(word, b"account") {
        Ok((CallKind::Account, rest))
    } else if same(word, b"order") {
        Ok((CallKind::Order, rest))
    } else if same(word, b"lots") {
        read_second(rest, b"of", CallKind::LotsOf)
    } else if same(word, b"entries") {
        read_second(rest, b"from", CallKind::EntriesFrom)
    } else {
        Err(at)
    }
}

fn read_begins<'a>(
    word: &[u8],
    at: &'a [u8],
    rest: &'a [u8],
) -> Result<(CallKind, &'a [u8]), &'a [u8]>
    ensures { result_map_both (λ p. (p.0, p.1.now)) (λ x. x.now) result ≡ begins word.now at.now rest.now }
{
    if same(word, b"buys") {
        Ok((CallKind::Buys, rest))
    } else if same(word, b"sells") {
        Ok((CallKind::Sells, rest))
    } else if same(word, b"comes") {
        Ok((CallKind::Comes, rest))
    } else if same(word, b"goes") {
        Ok((CallKind::Goes, rest))
    } else if same(word, b"billed") {
        read_second(rest, b"by", CallKind::BilledBy)
    } else if same(word, b"bills") {
        Ok((CallKind::Bills, rest))
    } else if same(word, b"pays") {
        read_paying(rest)
    } else if same(word, b"made") {
        read_second(rest, b"of", CallKind::MadeOf)
    } else {
        read_begins_other(word, at, rest)
    }
}

/// Which call a line begins, and what is left of the line then; or what is left from the word that does not fit on.
#[tactic(auto, unfolding(crate::specs::Openings::opening))]
pub fn read_opening(line: &[u8]) -> Result<(CallKind, &[u8]), &[u8]>
    ensures { result_map_both (λ p. (p.0, p.1.now)) (λ x. x.now) result ≡ opening line.now }
{
    let at = skip_blanks(line);
    let (word, rest) = first_word(at);
    read_begins(word, at, rest)
}
