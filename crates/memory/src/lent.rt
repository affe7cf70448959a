//! The memory of books: two slices that the caller lends, and the limits that the books in them were opened with.

ghost use Rattle.std.specs.Prelude.{◌≡◌};

use layout::Limits;

// Two slices and not one of structs: C lends words of 64 and of 32 bits, and they are all the memory that there is.
/// Lent memory that is read.
#[derive(Clone, Copy)]
pub struct View<'a> {
    pub wide: &'a [u64],
    pub narrow: &'a [u32],
    pub limits: Limits,
}

/// Lent memory that is written.
#[derive(Drop)]
pub struct Memory<'a> {
    pub wide: &'a mut [u64],
    pub narrow: &'a mut [u32],
    pub limits: Limits,
}

impl Memory<'_> {
    /// What is there to be read.
    pub fn view(&self) -> View<'_>
        ensures wide { result.wide.now ≡ self.now.wide.now }
        ensures narrow { result.narrow.now ≡ self.now.narrow.now }
        ensures limits { result.limits ≡ self.now.limits }
    {
        View {
            wide: self.wide,
            narrow: self.narrow,
            limits: self.limits,
        }
    }
}
