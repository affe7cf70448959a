//! Opening books by a list of limits.

ghost use Rattle.std.specs.Prelude.{◌≡◌};
ghost use Rattle.memory.specs.Opened.{opening_of};
ghost use Rattle.records.specs.State.{state};
ghost use Rattle.session.specs.Boundary.{limits_read};
ghost use Rattle.session.specs.Opening.{opened_by};

use crate::boundary::limits_from;
use memory::OpenError;

/// Makes empty books of lent memory, or leaves every word as it is and says why.
pub fn open(wide: &mut [u64], narrow: &mut [u32], limits: &[u64]) -> Result<(), OpenError>
    ensures { opening_of result (state wide.new narrow.new) ≡ opened_by (limits_read limits.now) (state wide.old narrow.old) }
{
    let limits = limits_from(limits).ok_or(OpenError::LimitsOutOfRange)?;
    memory::open(wide, narrow, limits)
}
