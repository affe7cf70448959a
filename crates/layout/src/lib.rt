//! The layout of the books in the two lent slices: how many words the limits ask for, and where each record, counter, total
//! and row lies. The addresses are defined for any limits and any index.

#![tactic(auto)]

ghost use Rattle.std.specs.Prelude.{◌≡◌, T};
ghost use Rattle.layout.specs.Areas.{Areas};
ghost use Rattle.layout.specs.Budget.{Budget};
ghost use Rattle.layout.specs.Layout.{Good, is_good, count_at, total_at, balance_at, stock_at, recipe_at, orders_at, order_at, lots_at, lot_at, parts_at, part_at, entries_at, entry_at, entry_links_at, narrow_need, wide_lots_at, wide_lot_at, wide_entries_at, wide_entry_at, wide_need, answer_need, capped, lot_rows, order_rows, entry_rows};

mod head;
mod limits;
mod numbers;

pub use head::{Counter, Total};
pub use limits::Limits;
use links::Shape;
pub use numbers::{at_most, below};

/// The largest limits.
pub const MOST_ITEMS: u32 = 4096;

pub const MOST_ORDERS: u32 = 65536;

pub const MOST_LOTS: u32 = 65536;

pub const MOST_PARTS: u32 = 65536;

pub const MOST_ENTRIES: u32 = 1000000;

/// How many accounts have a row of entries.
pub const ACCOUNTS: u32 = 16;

/// How many bytes are lent for each lot of the limits, and how many more.
const LOT_BYTES: usize = 32;

const OTHER_BYTES: usize = 8208;

const ACCOUNTS_AT: u32 = 32;

const ITEMS_AT: u32 = 64;

const ITEM_WORDS: u32 = 6;

const ORDER_WORDS: u32 = 8;

const LOT_WORDS: u32 = 4;

const BALANCES_AT: u32 = 16;

const STOCKS_AT: u32 = 64;

// By names of their own, since contracts above speak of places and not of the numbers of cases.
/// Where a counter lies in the narrow slice.
pub fn count_at(counter: Counter) -> usize
    ensures { result ≡ count_at counter }
{
    counter as usize
}

/// Where a total lies in the wide slice.
pub fn total_at(total: Total) -> usize
    ensures { result ≡ total_at total }
{
    total as usize
}

/// Where the two words of an item's recipe lie.
pub fn recipe_at(item: u32) -> usize
    ensures { result ≡ recipe_at item }
{
    ITEMS_AT as usize + ITEM_WORDS as usize * item as usize + 4
}

/// Where the sums of an account lie in the wide slice.
pub fn balance_at(account: u32) -> usize
    ensures { result ≡ balance_at account }
{
    BALANCES_AT as usize + 2 * account as usize
}

/// Where the sums of an item lie in the wide slice.
pub fn stock_at(item: u32) -> usize
    ensures { result ≡ stock_at item }
{
    STOCKS_AT as usize + 2 * item as usize
}

fn capped(at: usize) -> u32
    ensures { result ≡ capped at }
{
    u32::try_from(at).unwrap_or(u32::MAX)
}

impl Limits {
    /// Whether books may have these limits.
    pub fn are_good(self) -> bool
        ensures exact { result ≡ is_good self }
        ensures good { T result → Good self }
    {
        self.items <= MOST_ITEMS
            && self.orders <= MOST_ORDERS
            && self.lots <= MOST_LOTS
            && self.parts <= MOST_PARTS
            && self.entries <= MOST_ENTRIES
    }

    fn orders_at(self) -> usize
        ensures { result ≡ orders_at self }
    {
        ITEMS_AT as usize + ITEM_WORDS as usize * self.items as usize + ITEM_WORDS as usize
    }

    /// Where the row of an order lies.
    pub fn order_at(self, order: u32) -> usize
        ensures { result ≡ order_at self order }
    {
        self.orders_at() + ORDER_WORDS as usize * order as usize
    }

    fn lots_at(self) -> usize
        ensures { result ≡ lots_at self }
    {
        self.order_at(self.orders)
    }

    /// Where the narrow row of a lot lies.
    pub fn lot_at(self, lot: u32) -> usize
        ensures { result ≡ lot_at self lot }
    {
        self.lots_at() + LOT_WORDS as usize * lot as usize
    }

    /// Where the row of a recipe's part lies.
    pub fn part_at(self, part: u32) -> usize
        ensures { result ≡ part_at self part }
    {
        self.lot_at(self.lots) + 2 * part as usize
    }

    /// Where the narrow row of an entry lies.
    pub fn entry_at(self, entry: u32) -> usize
        ensures { result ≡ entry_at self entry }
    {
        self.part_at(self.parts) + 2 * entry as usize
    }

    /// How many narrow words the limits ask for.
    pub fn narrow_need(self) -> usize
        ensures { result ≡ narrow_need self }
    {
        self.entry_at(self.entries) + 2 * self.entries as usize
    }

    /// Where the wide row of a lot lies.
    pub fn wide_lot_at(self, lot: u32) -> usize
        ensures { result ≡ wide_lot_at self lot }
    {
        STOCKS_AT as usize + 2 * self.items as usize + 2 * lot as usize
    }

    /// Where the wide row of an entry lies.
    pub fn wide_entry_at(self, entry: u32) -> usize
        ensures { result ≡ wide_entry_at self entry }
    {
        self.wide_lot_at(self.lots) + 2 * entry as usize
    }

    /// How many wide words the limits ask for.
    pub fn wide_need(self) -> usize
        ensures { result ≡ wide_need self }
    {
        self.wide_entry_at(self.entries)
    }

    /// How many bytes are lent for an answer.
    pub fn answer_need(self) -> usize
        ensures { result ≡ answer_need self }
    {
        LOT_BYTES * self.lots as usize + OTHER_BYTES
    }

    /// The rows of lots: one for each item, and after them that of the free lots.
    pub fn lot_rows(self) -> Shape
        ensures { result ≡ lot_rows self }
    {
        Shape {
            cells: self.lots,
            rows: self.items.saturating_add(1),
            cells_at: capped(self.lots_at() + 2),
            cell_step: LOT_WORDS,
            heads_at: ITEMS_AT,
            head_step: ITEM_WORDS,
        }
    }

    /// The rows of orders, one for each item.
    pub fn order_rows(self) -> Shape
        ensures { result ≡ order_rows self }
    {
        Shape {
            cells: self.orders,
            rows: self.items,
            cells_at: capped(self.orders_at() + 6),
            cell_step: ORDER_WORDS,
            heads_at: ITEMS_AT + 2,
            head_step: ITEM_WORDS,
        }
    }

    /// The rows of entries, one for each account: an entry has a cell in the row of its left account, and one in that of its right.
    pub fn entry_rows(self) -> Shape
        ensures { result ≡ entry_rows self }
    {
        Shape {
            cells: capped(2 * self.entries as usize),
            rows: ACCOUNTS,
            cells_at: capped(self.entry_at(self.entries)),
            cell_step: 1,
            heads_at: ACCOUNTS_AT,
            head_step: 2,
        }
    }
}

/// The budget: books never take more than 8 words, or 64 bytes, for each unit of their limits, and so much more.
pub fn budget_stands()
    ensures { Budget }
{}

/// The rows of lots, orders and entries lie apart from each other and from all else, in the memory that is asked for.
#[tactic(auto, using(crate::proofs::Placed::areas))]
pub fn areas_stand()
    ensures { Areas }
{}
