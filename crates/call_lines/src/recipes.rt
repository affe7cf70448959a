//! A recipe's words and parts.

ghost use Rattle.std.specs.Prelude.{◌≡◌, [], ◌++◌, OnOk};
ghost use Rattle.std.specs.Result.{result_map_both};
ghost use Rattle.wire.specs.Rows.{part_bytes};
ghost use Rattle.wire.specs.Said.{part_said};
ghost use Rattle.call_lines.specs.Recipes.{head, part, next_part, parts, appended};
ghost use Rattle.call_lines.specs.Lines.{bytes_or_rest, recipe};
ghost use Rattle.call_lines.specs.Readings.{Gives};

use crate::rows::{put_fields, put_row};
use crate::stop::Stop;
use fields::ONE_FIELD;
use std::alloc::AllocError;
use wire::{CallKind, RecipePart};
use words::{read_end, read_mark, read_number, read_word};

/// The most parts that a recipe's count in one byte can say.
const MOST_PARTS: u8 = wire::MOST_PARTS as u8;
/// Where the count of parts stands in a recipe's bytes.
const COUNT_AT: usize = ONE_FIELD;

// Reads the item, and the colon behind it.
#[tactic(auto, unfolding(crate::specs::Recipes::head))]
fn read_head(line: &[u8]) -> Result<(u64, &[u8]), &[u8]>
    ensures { result_map_both (λ p. (p.0, p.1.now)) (λ x. x.now) result ≡ head line.now }
{
    let (item, rest) = read_number(line)?;
    let rest = read_mark(rest, b':')?;
    Ok((item, rest))
}

// Reads `item 0, 3 each`: the item, and how many of it.
#[tactic(auto, unfolding(crate::specs::Recipes::part))]
fn read_part(line: &[u8]) -> Result<(RecipePart, &[u8]), &[u8]>
    ensures { result_map_both (λ p. ((p.0.item, p.0.each), p.1.now)) (λ x. x.now) result ≡ part line.now }
{
    let rest = read_word(line, b"item")?;
    let (item, rest) = read_number(rest)?;
    let rest = read_mark(rest, b',')?;
    let (each, rest) = read_number(rest)?;
    let rest = read_word(rest, b"each")?;
    Ok((RecipePart { item, each }, rest))
}

// Reads a part after so many: each but the first has a comma in front.
#[tactic(auto, unfolding(crate::specs::Recipes::next_part))]
fn read_next_part(count: u8, line: &[u8]) -> Result<(RecipePart, &[u8]), &[u8]>
    ensures { result_map_both (λ p. ((p.0.item, p.0.each), p.1.now)) (λ x. x.now) result ≡ next_part count line.now }
{
    if count == 0 {
        return read_part(line);
    }
    let rest = read_mark(line, b',')?;
    read_part(rest)
}

// Appends the two fields of a part.
#[tactic(auto, unfolding(wire::specs::Rows::part_bytes))]
fn put_part(out: &mut Vec<u8>, part: RecipePart) -> Result<(), AllocError>
    ensures { OnOk result (out.new.items ≡ out.old.items ++ part_bytes (part_said part)) }
{
    put_fields(out, &[part.item, part.each])
}

// Reads parts up to the line's end, appends their fields, and answers how many there are.
fn read_parts<'a>(line: &'a [u8], out: &mut Vec<u8>) -> Result<u8, Stop<'a>>
    ensures { Gives (λ n. (n, out.new.items)) result (appended out.old.items (parts 255 [] line.now)) }
{
    // Each part says where the next begins, so the text is no iterator of parts.
    let mut rest = line;
    for count in 0..MOST_PARTS {
        if read_end(rest).is_ok() {
            return Ok(count);
        }
        let (part, after) = read_next_part(count, rest)?;
        put_part(out, part)?;
        rest = after;
    }
    read_end(rest)?;
    Ok(MOST_PARTS)
}

/// Reads a recipe, and leaves its bytes.
pub fn read_recipe<'a>(line: &'a [u8], call: &mut Vec<u8>) -> Result<(), Stop<'a>>
    ensures { Gives (λ _. call.new.items) result (bytes_or_rest (recipe line.now)) }
{
    let (item, rest) = read_head(line)?;
    put_row(call, CallKind::MadeOf, &[item])?;
    // The count is written here when the parts are read.
    call.push(0)?;
    let count = read_parts(rest, call)?;
    call[COUNT_AT] = count;
    Ok(())
}
