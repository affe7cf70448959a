//! Tests of lines of text: which calls they are, and how answers are shown.

#![tactic(auto)]

#[cfg(test)]
mod answers;
#[cfg(test)]
mod calls;
#[cfg(test)]
mod misfits;
#[cfg(test)]
mod printed;
#[cfg(test)]
mod recipes;
#[cfg(test)]
mod rows;
