use crate::Refusal;

/// What a call is answered. Lots and entries are the bytes of their lines: a type of whole lines would ask more of whoever makes such an answer.
/// Refusals name their numbers in the case, as all answers do.
#[derive(Clone, Copy, PartialEq, Eq, Debug)]
pub enum Answer<'a> {
    /// A refusal, and the place that it names.
    Refused(Refusal, u64),
    /// A number.
    Number(u64),
    /// Two numbers.
    Two(u64, u64),
    /// Lots.
    Lots(&'a [u8]),
    /// Entries.
    Entries(&'a [u8]),
}
