//! The cells of a row, one after the other.

ghost use Rattle.std.specs.Iterator.{YieldsFirst, item_count};
ghost use Rattle.links.specs.Walk.{cells_left};

use super::shape::Shape;

/// The cells that come after a place, as many as are asked for at most: rows of any words might lead in a circle.
#[derive(Debug, Drop)]
pub struct Cells<'a> {
    pub(crate) shape: Shape,
    pub(crate) words: &'a [u32],
    pub(crate) place: u32,
    pub(crate) left: usize,
}

impl Iterator for Cells<'_> {
    type Item = u32;

    ghost next_gives = { YieldsFirst cells_left };

    ghost remaining = { item_count cells_left };

    fn next(&mut self) -> Option<u32> {
        if self.left == 0 {
            return None;
        }
        let cell = self.shape.following(self.words, self.place)?;
        self.place = cell;
        self.left -= 1;
        Some(cell)
    }
}
