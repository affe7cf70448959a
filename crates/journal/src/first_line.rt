//! The first line of a journal, a remark: the limits that its books were opened with, as the options that ask for them.

ghost use Rattle.std.specs.Prelude.{◌≡◌, ◌++◌, OnOk, decimal};
ghost use Rattle.std.specs.Result.{result_map_both};
ghost use Rattle.journal.specs.FirstLine.{first_line, limit_read, limits_read, first_of, limits_in};

use layout::Limits;
use std::alloc::AllocError;
use words::{put_number, read_end, read_number, read_word};

fn put_limit(out: &mut Vec<u8>, option: &[u8], limit: u32) -> Result<(), AllocError>
    ensures { OnOk result (out.new.items ≡ out.old.items ++ (option.now ++ decimal limit)) }
{
    out.extend_from_slice(option)?;
    put_number(out, u64::from(limit))
}

/// Appends the first line.
pub fn put_first_line(out: &mut Vec<u8>, limits: Limits) -> Result<(), AllocError>
    ensures { OnOk result (out.new.items ≡ out.old.items ++ first_line limits) }
{
    put_limit(out, b"# books --items ", limits.items)?;
    put_limit(out, b" --orders ", limits.orders)?;
    put_limit(out, b" --lots ", limits.lots)?;
    put_limit(out, b" --parts ", limits.parts)?;
    put_limit(out, b" --entries ", limits.entries)?;
    out.push(b'\n')?;
    Ok(())
}

#[tactic(auto, unfolding(crate::specs::FirstLine::limit_read))]
fn read_limit<'a>(line: &'a [u8], option: &[u8]) -> Result<(u32, &'a [u8]), &'a [u8]>
    ensures { result_map_both (λ p. (p.0, p.1.now)) (λ x. x.now) result ≡ limit_read option.now line.now }
{
    let (limit, rest) = read_number(read_word(line, option)?)?;
    match u32::try_from(limit) {
        Ok(limit) => Ok((limit, rest)),
        Err(_) => Err(rest),
    }
}

#[tactic(auto, unfolding(crate::specs::FirstLine::limits_read))]
fn read_limits(line: &[u8]) -> Result<Limits, &[u8]>
    ensures { result_map_both (λ l. l) (λ x. x.now) result ≡ limits_read line.now }
{
    let rest = read_word(line, b"#")?;
    let rest = read_word(rest, b"books")?;
    let (items, rest) = read_limit(rest, b"--items")?;
    let (orders, rest) = read_limit(rest, b"--orders")?;
    let (lots, rest) = read_limit(rest, b"--lots")?;
    let (parts, rest) = read_limit(rest, b"--parts")?;
    let (entries, rest) = read_limit(rest, b"--entries")?;
    read_end(rest)?;
    Ok(Limits {
        items,
        orders,
        lots,
        parts,
        entries,
    })
}

fn first_of(text: &[u8]) -> &[u8]
    ensures { result.now ≡ first_of text.now }
{
    let len = text.iter().take_while(|byte| **byte != b'\n').count();
    &text[..len]
}

/// The limits that the first line of a text names, if it is a journal's.
pub fn limits_in(text: &[u8]) -> Option<Limits>
    ensures { result ≡ limits_in text.now }
{
    read_limits(first_of(text)).ok()
}
