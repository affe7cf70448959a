//! A row of cells: its first, its n-th, and one more at its end.

ghost use Rattle.std.specs.Prelude.{◌≡◌, cond, None, nat_lt};
ghost use Rattle.links.specs.Area.{header_of, following_in, nth_in};
ghost use Rattle.store.specs.Steps.{pushed};

use links::Shape;

/// The first cell of `row`, which is one of the rows below `most`.
pub fn first(narrow: &[u32], rows: Shape, most: u32, row: u32) -> Option<u32>
    ensures { result ≡ cond (nat_lt row most) (following_in rows narrow.now (header_of rows row)) None }
{
    if row >= most {
        return None;
    }
    rows.following(narrow, rows.header(row))
}

/// The cell at place `index` of `row`, which is one of the rows below `most`.
pub fn nth(narrow: &[u32], rows: Shape, most: u32, row: u32, index: u32) -> Option<u32>
    ensures { result ≡ cond (nat_lt row most) (nth_in rows narrow.now row index) None }
{
    if row >= most {
        return None;
    }
    rows.nth(narrow, row, index)
}

/// Puts `cell` at the end of `row`.
#[tactic(auto, unfolding(crate::specs::Steps::pushed))]
pub fn push(narrow: &mut [u32], rows: Shape, row: u32, cell: u32)
    ensures { narrow.new ≡ pushed rows row cell narrow.old }
{
    let tail = rows.tail(narrow, row);
    rows.insert_after(narrow, row, tail, cell);
}
