//! Why a call is turned away.

ghost use Rattle.std.specs.Prelude.{◌≡◌, Some};
ghost use Rattle.rules.specs.Refused.{refused_text};

use std::error::Error;
use std::fmt;
use wire::Refusal;

/// Why a call is turned away, and the place that is named.
#[derive(Clone, Copy, PartialEq, Eq, Debug)]
pub struct Refused {
    pub by: Refusal,
    pub place: u64,
}

// Two, since a line reads by the field that it names. Both are cold, since most calls are taken: the compiler then takes what comes behind the checks for the usual way.
impl Refused {
    /// A refusal that names the first field, or none.
    #[cold]
    pub fn first(by: Refusal) -> Refused
        ensures by { result.by ≡ by }
        ensures place { result.place ≡ 0 }
    {
        Refused { by, place: 0 }
    }

    /// A refusal that names the second field, the pieces.
    #[cold]
    pub fn second(by: Refusal) -> Refused
        ensures by { result.by ≡ by }
        ensures place { result.place ≡ 1 }
    {
        Refused { by, place: 1 }
    }
}

impl fmt::Display for Refused {
    ghost output = { λ refused. Some (refused_text refused) };

    fn fmt<W: fmt::Write>(&self, f: &mut fmt::Formatter<W>) -> fmt::Result {
        write!(f, "{}, at {}", self.by, self.place)
    }
}

impl Error for Refused {}
