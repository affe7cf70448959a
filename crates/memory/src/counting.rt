//! The words of the head: limits, counters and totals.

ghost use Rattle.std.specs.Prelude.{◌≡◌};
ghost use Rattle.memory.specs.Books.{limits_in, count_of, put_count, total_of, put_total};
ghost use Rattle.memory.specs.Lent.{NarrowAlone, WideAlone};

use crate::lent::{Memory, View};
use layout::{Counter, Limits, Total};
use links::{get, put};

/// The limits in the head.
pub fn limits_in(narrow: &[u32]) -> Limits
    ensures { result ≡ limits_in narrow.now }
{
    Limits {
        items: get(narrow, 0),
        orders: get(narrow, 1),
        lots: get(narrow, 2),
        parts: get(narrow, 3),
        entries: get(narrow, 4),
    }
}

impl View<'_> {
    /// A counter of the head.
    #[tactic(auto, unfolding(crate::specs::Books::count_of))]
    pub fn count(self, counter: Counter) -> u32
        ensures { result ≡ count_of counter self.entry.narrow.now }
    {
        get(self.narrow, layout::count_at(counter))
    }

    /// A total of the head.
    #[tactic(auto, unfolding(crate::specs::Books::total_of))]
    pub fn total(self, which: Total) -> u64
        ensures { result ≡ total_of which self.entry.wide.now }
    {
        get(self.wide, layout::total_at(which))
    }
}

impl Memory<'_> {
    /// Sets a counter of the head.
    #[tactic(auto, unfolding(crate::specs::Books::put_count))]
    pub fn put_count(&mut self, counter: Counter, value: u32)
        ensures narrow { self.new.narrow.now ≡ put_count counter value self.old.narrow.now }
        ensures alone { NarrowAlone self.old self.new }
    {
        put(self.narrow, layout::count_at(counter), value);
    }

    /// Sets a total of the head.
    #[tactic(auto, unfolding(crate::specs::Books::put_total))]
    pub fn put_total(&mut self, which: Total, value: u64)
        ensures wide { self.new.wide.now ≡ put_total which value self.old.wide.now }
        ensures alone { WideAlone self.old self.new }
    {
        put(self.wide, layout::total_at(which), value);
    }
}
