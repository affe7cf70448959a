//! A whole run, from text to text.

ghost use Rattle.std.specs.Prelude.{◌≡◌, true, MatchResult};
ghost use Rattle.layout.specs.Layout.{is_good};
ghost use Rattle.text.specs.Run.{ran, failure};

use crate::books::Books;
use layout::Limits;
use session::RunError;
use std::alloc::Global;

/// What is written for a text of calls: what new books of these limits answer, a line for each line that is neither blank nor a remark.
pub fn run(heap: Global, limits: Limits, text: &[u8]) -> Result<Vec<u8>, RunError>
    ensures { MatchResult result (λ v. (is_good limits ≡ true) × (v.items ≡ ran limits text.now)) (λ e. e ≡ failure limits) }
{
    let mut books = Books::open(heap, limits)?;
    let mut written = Vec::new(heap);
    books.answer(text, &mut written)?;
    Ok(written)
}
