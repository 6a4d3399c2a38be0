//! The tests of calls of `randomize`: answers of each kind with their proofs, which the checker of derivations judges, with ample memory.
//!
//! They stand apart, so that the layer is proved once.
#![tactic(auto)]

#[cfg(test)]
mod answers;
mod form;
#[cfg(test)]
mod held;
#[cfg(test)]
mod proofs_of;
#[cfg(test)]
mod sample;

pub use form::Form;
