//! What holds of the lines of a journal.

ghost use Rattle.journal.specs.Statements.{LinesComeBack, FirstLineComesBack};

/// Reading the lines of some calls gives the calls again.
#[tactic(auto, using(crate::proofs::Lines::lines_come_back))]
pub fn lines_come_back_stands()
    ensures { LinesComeBack }
{}

/// Reading the first line of some limits gives the limits again.
pub fn first_line_comes_back_stands()
    ensures { FirstLineComesBack }
{}
