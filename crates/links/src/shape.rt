/// Where the words of rows lie in a slice, by start and step, and how many rows and cells there are. A cell has one word,
/// its link. A row has two, one behind the other: the link to its first cell, and its last place.
#[derive(Clone, Copy, PartialEq, Eq, Debug)]
pub struct Shape {
    pub cells: u32,
    pub rows: u32,
    pub cells_at: u32,
    pub cell_step: u32,
    pub heads_at: u32,
    pub head_step: u32,
}
