//! What is wanted, and what was taken.

/// So many pieces of an item.
#[derive(Clone, Copy, PartialEq, Eq, Debug)]
pub struct Want {
    pub item: u32,
    pub pieces: u64,
}

/// How many lines say what was taken of which lots, and what it cost.
#[derive(Clone, Copy, PartialEq, Eq, Debug)]
pub struct Taken {
    pub lines: u32,
    pub cost: u64,
}
