//! What pieces would cost, found by reading alone.

ghost use Rattle.std.specs.Prelude.{◌≡◌};
ghost use Rattle.memory.specs.Lent.{seen};
ghost use Rattle.taking.specs.Takes.{cost_of};

use crate::parts::part_of;
use crate::wants::Want;
use memory::View;

/// What the pieces that are wanted would cost, from the oldest lot on; where there are fewer, what those cost.
pub fn cost_of(view: View<'_>, want: Want) -> u64
    ensures { result ≡ cost_of view.entry.limits want (seen view.entry) }
{
    if want.item >= view.limits.items {
        return 0;
    }
    // A loop and not a `fold`: it ends at the last lot that is asked for. `try_fold` would carry both numbers in a pair and end by an error.
    let mut left = want.pieces;
    let mut cost: u64 = 0;
    for cell in view.limits.lot_rows().cells_of(view.narrow, want.item) {
        if left == 0 {
            return cost;
        }
        let part = part_of(view.lot(cell), left);
        left -= u64::from(part.pieces);
        cost = cost.saturating_add(part.cost);
    }
    cost
}
