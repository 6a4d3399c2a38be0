//! Which groups of literals contradict each other: a core of groups that clauses refute, of which none can be left out.
//!
//! What crates above cite: the words of `specs/`, and the lemma file `proofs/Turns.antt`.
#![tactic(auto)]

mod memory;
mod search;

pub use memory::NoMemory;
pub use search::{CoreEnd, Needed, find_core, put_core};
