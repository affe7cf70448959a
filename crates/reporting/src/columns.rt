//! Tables as text: numbers right-aligned in columns.

ghost use Rattle.std.specs.Prelude.{Some};
ghost use Rattle.reporting.specs.Columns.{cell_of};

use std::fmt;

/// The width of a column, and a number in it. It is printed behind a space, with more in front to the width.
#[derive(Clone, Copy, PartialEq, Eq, Debug)]
pub struct Cell(pub usize, pub u64);

impl fmt::Display for Cell {
    ghost output = { λ c. Some (cell_of c) };

    fn fmt<W: fmt::Write>(&self, f: &mut fmt::Formatter<W>) -> fmt::Result {
        let Cell(width, number) = *self;
        write!(f, " {number:>width$}")
    }
}
