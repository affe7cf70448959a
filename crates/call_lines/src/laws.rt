//! What holds of the calls that lines are.

ghost use Rattle.call_lines.specs.Statements.{LineComesBack, LinesReadable, PlacesAtWords};

/// Reading the line that a call is written as gives the same call.
#[tactic(auto, using(crate::proofs::LineLaws::line_comes_back))]
pub fn line_comes_back_stands()
    ensures { LineComesBack }
{}

/// What a line is has numbers that fields of eight bytes can carry.
#[tactic(auto, using(crate::proofs::ReadableCalls::lines_readable))]
pub fn lines_readable_stands()
    ensures { LinesReadable }
{}

/// Where a line ceases to be a call, a word begins, or the line ends.
pub fn places_at_words_stands()
    ensures { PlacesAtWords }
{}
