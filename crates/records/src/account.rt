//! The accounts, by number and name.

ghost use Rattle.std.specs.Prelude.{◌≡◌, Some};
ghost use Rattle.records.specs.Accounts.{number_of, InOrder, account_name};

use std::fmt;

/// An account of the books.
#[derive(Clone, Copy, PartialEq, Eq, Debug)]
pub enum Account {
    Stock,
    NotBilled,
    Suppliers,
    Customers,
    Bank,
    Sales,
    CostOfSales,
    Differences,
    Losses,
}

impl Account {
    /// All of them, in the order of their numbers.
    pub const ALL: [Account; 9] = [
        Account::Stock,
        Account::NotBilled,
        Account::Suppliers,
        Account::Customers,
        Account::Bank,
        Account::Sales,
        Account::CostOfSales,
        Account::Differences,
        Account::Losses,
    ];
}

/// The k-th of all accounts has the number k.
pub fn accounts_in_order_stands()
    ensures { InOrder Account.ALL }
{}

/// The number that calls and entries name it by.
impl From<Account> for u32 {
    ghost from_gives = { λ account n. n ≡ number_of account };

    fn from(account: Account) -> u32 {
        account as u32
    }
}

impl fmt::Display for Account {
    ghost output = { λ a. Some (account_name (number_of a)) };

    #[tactic(auto, unfolding(crate::specs::Accounts::account_name))]
    fn fmt<W: fmt::Write>(&self, f: &mut fmt::Formatter<W>) -> fmt::Result {
        f.write_str(match self {
            Account::Stock => "stock",
            Account::NotBilled => "goods received and not billed",
            Account::Suppliers => "owed to suppliers",
            Account::Customers => "owed by customers",
            Account::Bank => "bank",
            Account::Sales => "sales",
            Account::CostOfSales => "cost of sales",
            Account::Differences => "differences of price",
            Account::Losses => "losses",
        })
    }
}
