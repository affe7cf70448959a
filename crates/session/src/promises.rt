//! The promises of the books, for every list of calls. The keeper is what the contracts of `open` and `call` say of memory.

ghost use Rattle.firm.specs.Promise.{Right, RefusalKeeps, EnoughMemory};
ghost use Rattle.session.specs.Agreeing.{LedgerAgrees, EntriesKept};
ghost use Rattle.session.specs.Keeper.{keeper as booksKeeper, Standing, Sound};
ghost use Rattle.firm.specs.Promise.{whole};

use firm::Keeps;

/// The books, as a program that keeps books: every call can be done.
pub struct Books;

impl Keeps for Books {
    ghost stage = { λ _. whole };

    ghost keeper = { λ _. booksKeeper };

    ghost stands = { λ _. Standing };

    ghost sound = { λ _. Sound };
}

/// For every list of calls, of all kinds, the answers are those of the books.
pub fn answers_are_right()
    ensures { Right whole booksKeeper }
{
    firm::right_by_steps(&Books);
}

/// A call that is turned away leaves memory as it was, word for word.
pub fn refusals_keep()
    ensures { RefusalKeeps whole booksKeeper }
{
    firm::refusal_keeps_by_steps(&Books);
}

/// Memory is as small as promised, and each word fits 64 bits.
pub fn memory_suffices()
    ensures { EnoughMemory booksKeeper }
{
    firm::enough_memory_by_steps(&Books);
}

/// For every list of calls the sums that are kept agree: with each other, with what the lots cost, and with the orders.
pub fn ledger_agrees()
    ensures { LedgerAgrees }
{}

/// What was entered stays as it is, whatever is called afterwards.
pub fn entries_are_kept()
    ensures { EntriesKept }
{}
