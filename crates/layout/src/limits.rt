/// What books are opened with: how many of each there can be. A recipe counts one part besides its own.
#[derive(Clone, Copy, PartialEq, Eq, Debug)]
pub struct Limits {
    pub items: u32,
    pub orders: u32,
    pub lots: u32,
    pub parts: u32,
    pub entries: u32,
}
