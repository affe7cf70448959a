// The laws of the formats, each a contract whose proof is asked for.
ghost use Rattle.wire.specs.Statements.{CallComesBack, CallsApart, OneReading, AnswerComesBack, AnswerIsBytes, ListsCompose, AnswersFit};

/// Reading what was written of a call gives the same call.
#[tactic(auto, using(crate::proofs::CallLaws::comes_back))]
pub fn call_comes_back_stands()
    ensures { CallComesBack }
{}

/// Two different calls never have the same bytes.
#[tactic(auto, using(crate::proofs::CallLaws::apart))]
pub fn calls_apart_stands()
    ensures { CallsApart }
{}

/// Every row of bytes is just one call, or ceases to be one at just one place, and reading tells which.
pub fn one_reading_stands()
    ensures { OneReading }
{}

/// Reading what was written of an answer gives the same answer.
#[tactic(auto, using(crate::proofs::AnswerLaws::answer_comes_back))]
pub fn answer_comes_back_stands()
    ensures { AnswerComesBack }
{}

/// What is read as an answer is what is written of it.
pub fn answer_is_bytes_stands()
    ensures { AnswerIsBytes }
{}

/// A list that is begun and whose lines are put one by one is the whole answer.
#[tactic(auto, using(crate::proofs::ListLaws::lists_compose))]
pub fn lists_compose_stands()
    ensures { ListsCompose }
{}

/// How long an answer is: 32 bytes for each lot that it can have and 8,208 more are enough.
#[tactic(auto, using(crate::proofs::ListLaws::answers_fit))]
pub fn answers_fit_stands()
    ensures { AnswersFit }
{}
