//! Refutations by resolution as hinted derivations (LRAT).
//!
//! `specs/Needed.antt` says which steps a goal depends on, and `specs/Made.antt` which lines they make.
//! `proofs/Accepted.antt` shows that the verdict on these lines is good, since unit propagation over the
//! clauses of a chain, from the last to the first, undoes its resolutions one by one.
#![tactic(auto)]

mod examples;
mod file;
mod lines;
mod needed;
mod numbers;

pub use examples::{two_variables, with_assumption};
pub use file::made;
