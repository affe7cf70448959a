/// The counters in the head of the narrow slice, each with the place of its word: how many orders and entries there are,
/// how many rows of parts are in use, and how many lots.
#[derive(Clone, Copy, PartialEq, Eq, Debug)]
pub enum Counter {
    Orders = 16,
    Entries = 17,
    Parts = 18,
    Lots = 19,
}

/// The totals in the head of the wide slice, each with the place of its word: how many documents there are, the sum of all
/// entries, what all lots cost.
#[derive(Clone, Copy, PartialEq, Eq, Debug)]
pub enum Total {
    Documents = 0,
    Booked = 1,
    Worth = 2,
}
