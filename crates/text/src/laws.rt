//! What holds of texts and tallies.

ghost use Rattle.text.specs.Statements.{LineByLine, TallyCounts};

/// A text that comes in lines is answered as it would be whole.
pub fn line_by_line_stands()
    ensures { LineByLine }
{}

/// The tally counts what was taken, what was turned away, and by which refusal.
#[tactic(auto, using(crate::proofs::Counting::tally_counts))]
pub fn tally_counts_stands()
    ensures { TallyCounts }
{}
