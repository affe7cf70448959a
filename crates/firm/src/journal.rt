//! What keeping the documents alone is good for.

ghost use Rattle.firm.specs.Journal.{JournalLaws};

/// Going through the calls that were taken and are no questions gives the same firm as going through all calls, and none of them is turned away.
#[tactic(auto, using(crate::proofs::Documents::journal_laws))]
pub fn journal_stands()
    ensures { JournalLaws }
{}
