//! The last line of a report: how many calls were taken and turned away.

ghost use Rattle.std.specs.Prelude.{◌≡◌, ◌++◌, OnOk, slice_index, string_bytes};
ghost use Rattle.reporting.specs.Columns.{rows_to};
ghost use Rattle.reporting.specs.Report.{by_shown, tally_line};

use std::alloc::AllocError;
use text::Tally;

// Appends how many were turned away by a refusal, if any were.
fn put_by(out: &mut String, count: u64, number: usize) -> Result<(), AllocError>
    ensures { OnOk result (string_bytes out.new ≡ string_bytes out.old ++ by_shown count number) }
{
    if count == 0 {
        return Ok(());
    }
    write!(out, "; {count} by {number}")
}

// Appends how many were turned away by each refusal, by its number, as the line names it.
fn put_refusals(out: &mut String, tally: &Tally) -> Result<(), AllocError>
    ensures { OnOk result (string_bytes out.new ≡ string_bytes out.old ++ rows_to (λ n. by_shown (slice_index tally.now.by n) n) 10) }
{
    for (number, count) in tally.by.iter().enumerate() {
        put_by(out, *count, number)?;
    }
    Ok(())
}

/// Appends the line that says how many calls were taken and how many turned away, by refusal.
#[tactic(auto, unfolding(crate::specs::Report::tally_line))]
pub fn put_tally(out: &mut String, tally: &Tally) -> Result<(), AllocError>
    ensures { OnOk result (string_bytes out.new ≡ string_bytes out.old ++ tally_line tally.now) }
{
    write!(
        out,
        "calls: {} taken, {} turned away",
        tally.taken, tally.turned
    )?;
    put_refusals(out, tally)?;
    writeln!(out)
}
