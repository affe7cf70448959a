//! What crosses the boundary to other languages.

ghost use Rattle.std.specs.Prelude.{◌≡◌};
ghost use Rattle.session.specs.Boundary.{limits_read, limit_at};

use layout::{Limits, at_most};
use links::get;

/// How many kinds of limits there are.
pub const KINDS: usize = 5;

fn limit(words: &[u64], k: usize, most: u32) -> Option<u32>
    ensures { result ≡ limit_at words.now k most }
{
    at_most(get(words, k), most)
}

// No `TryFrom`: it would have to stand in `layout`, which knows nothing of C; there is one reason, so `None` says it.
/// Limits from a list of numbers: a shorter list means 0 for the rest, and a longer one is out of range.
pub fn limits_from(words: &[u64]) -> Option<Limits>
    ensures { result ≡ limits_read words.now }
{
    if words.len() > KINDS {
        return None;
    }
    Some(Limits {
        items: limit(words, 0, layout::MOST_ITEMS)?,
        orders: limit(words, 1, layout::MOST_ORDERS)?,
        lots: limit(words, 2, layout::MOST_LOTS)?,
        parts: limit(words, 3, layout::MOST_PARTS)?,
        entries: limit(words, 4, layout::MOST_ENTRIES)?,
    })
}
