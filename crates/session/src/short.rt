//! Answers of at most 17 bytes, and how each is written.

ghost use Rattle.std.specs.Prelude.{◌≡◌, ◌≤◌, length};
ghost use Rattle.fields.specs.Written.{wrote, written};
ghost use Rattle.firm.specs.Calls.{Answer, number, two};
ghost use Rattle.rules.specs.Outcome.{refusing, told_by};
ghost use Rattle.session.specs.Lengths.{refusing_short, number_short, two_short, told_short};
ghost use Rattle.session.specs.Calling.{Said};
ghost use Rattle.wire.specs.Answers.{bytes_of_answer};

use rules::Refused;

/// What is answered in at most 17 bytes.
pub trait Short {
    ghost told: { Self → Answer };

    /// Writes it as an answer, and answers its length; nothing where it does not fit.
    fn write(self, out: &mut [u8]) -> Option<usize>
        ensures { wrote result out.new ≡ written (bytes_of_answer (told self)) out.old };

    ghost short: { (x : Self) → length (bytes_of_answer (told x)) ≤ 17 };
}

impl Short for Refused {
    ghost told = { refusing };

    ghost short = { refusing_short };

    fn write(self, out: &mut [u8]) -> Option<usize> {
        wire::write_refusal(out, self.by, self.place)
    }
}

impl Short for u64 {
    ghost told = { number };

    ghost short = { number_short };

    fn write(self, out: &mut [u8]) -> Option<usize> {
        wire::write_number(out, self)
    }
}

impl Short for (u64, u64) {
    ghost told = { λ p. two p.0 p.1 };

    ghost short = { λ p. two_short p.0 p.1 };

    fn write(self, out: &mut [u8]) -> Option<usize> {
        wire::write_two(out, self.0, self.1)
    }
}

impl<S: Short> Short for Result<S, Refused> {
    ghost told = { told_by S.told };

    ghost short = { told_short S.told S.short };

    fn write(self, out: &mut [u8]) -> Option<usize> {
        match self {
            Ok(said) => said.write(out),
            Err(refused) => refused.write(out),
        }
    }
}

/// Writes an answer that has room: its length, which is what C is answered.
pub fn say<S: Short>(said: S, out: &mut [u8]) -> usize
    requires { 17 ≤ length out.old }
    ensures { Said (S.told said) result out.old out.new }
{
    said.write(out).unwrap_or(0)
}
