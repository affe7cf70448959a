//! The sums that are kept for accounts and items.

ghost use Rattle.std.specs.Prelude.{◌≡◌};
ghost use Rattle.memory.specs.Books.{balance_of, put_balance, stock_of, put_stock};
ghost use Rattle.memory.specs.Lent.{WideAlone};

use crate::lent::{Memory, View};
use layout::ACCOUNTS;
use records::{Balance, Record, Stock};

// One for each kind of record: a body says where the rows of its kind lie, see `subjects.rt`.
impl View<'_> {
    /// The kept sums of an account.
    #[tactic(auto, unfolding(crate::specs::Books::balance_of))]
    pub fn balance(self, account: u32) -> Balance
        ensures { result ≡ balance_of account self.entry.wide.now }
    {
        if account < ACCOUNTS {
            Balance::read(self.wide, layout::balance_at(account))
        } else {
            Balance::default()
        }
    }

    /// The kept sums of an item.
    #[tactic(auto, unfolding(crate::specs::Books::stock_of))]
    pub fn stock(self, item: u32) -> Stock
        ensures { result ≡ stock_of item self.entry.wide.now }
    {
        Stock::read(self.wide, layout::stock_at(item))
    }
}

impl Memory<'_> {
    /// Puts the kept sums of an account.
    #[tactic(auto, unfolding(crate::specs::Books::put_balance))]
    pub fn put_balance(&mut self, account: u32, value: Balance)
        ensures wide { self.new.wide.now ≡ put_balance account value self.old.wide.now }
        ensures alone { WideAlone self.old self.new }
    {
        if account < ACCOUNTS {
            value.write(self.wide, layout::balance_at(account));
        }
    }

    /// Puts the kept sums of an item.
    #[tactic(auto, unfolding(crate::specs::Books::put_stock))]
    pub fn put_stock(&mut self, item: u32, value: Stock)
        ensures wide { self.new.wide.now ≡ put_stock item value self.old.wide.now }
        ensures alone { WideAlone self.old self.new }
    {
        value.write(self.wide, layout::stock_at(item));
    }
}
