ghost use Rattle.std.specs.Prelude.{◌≡◌, ℕ, List, ◌++◌, length};
ghost use Rattle.std.specs.List.{flat_map};
ghost use Rattle.fields.specs.Written.{wrote, written, line_put};
ghost use Rattle.firm.specs.Calls.{Answer};
ghost use Rattle.wire.specs.declared.answer_kind.AnswerKind.{AnswerKind};
ghost use Rattle.wire.specs.Answers.{list_head, bytes_of_answer};
ghost use Rattle.wire.specs.Told.{answer_number};

use crate::{AnswerKind, Row};
use fields::{put_fields, put_line};

/// A line of an answer that is a list.
pub trait Line: Row<4> {
    ghost KIND: { AnswerKind };

    /// The answer that such lines are.
    const KIND: AnswerKind;

    // That answer, by the bytes of its lines.
    ghost answer: { List ℕ → Answer };

    /// Begins an answer of so many lines, and answers the length of what is written; nothing where that does not fit.
    final fn begin(out: &mut [u8], count: u64) -> Option<usize>
        ensures { wrote result out.new ≡ written (list_head (answer_number KIND) count) out.old }
    {
        put_fields(out, Self::KIND.into(), [count])
    }

    /// Writes the k-th line of an answer that is begun, and answers where it ends; nothing where it does not fit.
    final fn put(self, out: &mut [u8], k: usize) -> Option<usize>
        ensures { wrote result out.new ≡ line_put k (Self.bytes_of (Self.told self)) out.old }
    {
        put_line(out, k, self.fields())
    }

    ghost line_by_line: { (bytes : List ℕ) → bytes_of_answer (answer bytes) ≡ list_head (answer_number KIND) (length (Self.all_in bytes)) ++ flat_map Self.bytes_of (Self.all_in bytes) };
}
