//! Circuits that choose, extend and shift vectors of literals, and that reduce them to one
//! (IEEE 1800-2017, clauses 11.4.9 to 11.4.11 and 11.8.2). Vectors stand least bit first.
//!
//! What crates above cite: the words of `specs/Shape.antt`, and the lemma file
//! `proofs/ReductionLemmas.antt` (reductions as tests of the number of a vector).
#![tactic(auto)]

mod choice;
mod extension;
mod kind;
mod memory;
mod reduction;
mod shifter;

pub use choice::choose;
pub use extension::extend;
pub use kind::ShiftKind;
pub use memory::NoMemory;
pub use reduction::{all, any, odd};
pub use shifter::shift;
