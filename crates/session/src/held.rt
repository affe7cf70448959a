//! Books in memory of their own, of just the size that their limits ask for.

ghost use Rattle.std.specs.Prelude.{◌≡◌, true, length, option_copied, option_map, IfOk, MatchResult};
ghost use Rattle.std.specs.Borrow.{sem};
ghost use Rattle.std.specs.Io.BufRead.{Rests};
ghost use Rattle.layout.specs.Layout.{Good, is_good};
ghost use Rattle.memory.specs.Books.{limits_in};
ghost use Rattle.memory.specs.Lent.{seen};
ghost use Rattle.session.specs.Held.{words_of, call_on, answer_in, HasLeft, Fresh, unheld};
ghost use Rattle.session.specs.contracts.held.Held.{the_row};

use crate::calling::call;
use crate::error::RunError;
use layout::Limits;
use memory::View;
use std::alloc::{AllocError, Global};

/// Books and the memory that they are kept in.
#[derive(Drop)]
pub struct Held {
    wide: Vec<u64>,
    narrow: Vec<u32>,
    // the bytes for an answer
    answer: Vec<u8>,
}

impl Held {
    // Memory of the size that good limits ask for, opened.
    fn open_good(heap: Global, limits: Limits) -> Result<Held, AllocError>
        requires { Good limits }
        ensures { IfOk result (Fresh limits) }
    {
        let mut wide = vec![in heap; 0u64; limits.wide_need()]?;
        let mut narrow = vec![in heap; 0u32; limits.narrow_need()]?;
        let answer = vec![in heap; 0u8; limits.answer_need()]?;
        let _ = memory::open(&mut wide, &mut narrow, limits);
        Ok(Held {
            wide,
            narrow,
            answer,
        })
    }

    /// New books of these limits. The memory that they are kept in is asked for here, once.
    pub fn open(heap: Global, limits: Limits) -> Result<Held, RunError>
        ensures { MatchResult result (λ h. (is_good limits ≡ true) × Fresh limits h) (λ e. e ≡ unheld limits) }
    {
        if !limits.are_good() {
            return Err(RunError::LimitsOutOfRange);
        }
        Ok(Held::open_good(heap, limits)?)
    }

    /// Does one call, and gives the bytes of its answer.
    pub fn call(&mut self, row: &[u8]) -> Option<&[u8]>
        ensures* does { sem 𝓛 (Rests the_row self.entry (HasLeft self.old row.now)) }
        ensures answer { option_copied result ≡ answer_in (call_on self.old row.now) }
        ensures whole { option_map (λ a. length a.now) result ≡ (call_on self.old row.now).came }
    {
        let length = call(&mut self.wide, &mut self.narrow, row, &mut self.answer)?;
        Some(&self.answer[..length])
    }

    /// What is there to be read.
    pub fn view(&self) -> View<'_>
        ensures words { seen result ≡ words_of self.now }
        ensures limits { result.limits ≡ limits_in self.now.narrow.items }
    {
        View {
            wide: self.wide.as_slice(),
            narrow: self.narrow.as_slice(),
            limits: memory::limits_in(self.narrow.as_slice()),
        }
    }
}
