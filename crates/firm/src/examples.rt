//! Books that were worked by hand.

ghost use Rattle.firm.specs.Books.{WorkedBooks};

/// Each call of the worked books is answered as written there.
#[tactic(auto, using(crate::proofs::Worked::worked_books))]
pub fn worked_books_stands()
    ensures { WorkedBooks }
{}
