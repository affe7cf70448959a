//! From one call to every list of calls, for any program that keeps the books in words. A program gives what its contracts say of
//! memory and a relation between memory and firm; what is owed of opening and of one call then gives each promise whole.

ghost use Rattle.std.specs.Prelude.{ℕ, Bool};
ghost use Rattle.firm.specs.Firm.{Firm};
ghost use Rattle.firm.specs.Calls.{Limits};
ghost use Rattle.firm.specs.Promise.{Memory, Keeper, Right, RefusalKeeps, EnoughMemory};
ghost use Rattle.firm.specs.Keeping.{AllSteps, Stays, KeepsSound, Within};

/// A program that keeps books: which calls its stage can do, what its contracts say of memory, what memory stands for, and what
/// always holds of memory.
pub trait Keeps {
    ghost stage: { Self → ℕ → Bool };

    ghost keeper: { Self → Keeper };

    ghost stands: { Self → Limits → Memory → Firm → Type 0 };

    ghost sound: { Self → Limits → Memory → Type 0 };
}

/// For every list of calls the answers are those of the books.
pub fn right_by_steps<K: Keeps>(k: &K)
    requires { AllSteps (K.stage k.now) (K.keeper k.now) (K.stands k.now) }
    ensures { Right (K.stage k.now) (K.keeper k.now) }
{}

/// A call that is turned away leaves memory as it was.
pub fn refusal_keeps_by_steps<K: Keeps>(k: &K)
    requires steps { AllSteps (K.stage k.now) (K.keeper k.now) (K.stands k.now) }
    requires stays { Stays (K.keeper k.now) (K.stands k.now) }
    ensures { RefusalKeeps (K.stage k.now) (K.keeper k.now) }
{}

/// Memory suffices, whatever is called.
#[tactic(auto, using(crate::proofs::Keeping::enough_memory_by_steps))]
pub fn enough_memory_by_steps<K: Keeps>(k: &K)
    requires sound { KeepsSound (K.keeper k.now) (K.sound k.now) }
    requires within { Within (K.sound k.now) }
    ensures { EnoughMemory (K.keeper k.now) }
{}
