//! Tests of `wire`: rows of bytes, whole and damaged at every length.

#![tactic(auto)]

#[cfg(test)]
mod answers;
#[cfg(test)]
mod calls;
