//! The closed items of a phase of a call as clauses over the bits of its unknowns (G. S. Tseitin, 1968; IEEE 1800-2017, 18.5).
//!
//! What crates above cite: `specs/Encodable.antt`, and the lemma file `proofs/Encodable.antt` (the items of each phase can be made into clauses, and evaluated).
#![tactic(auto)]

mod clauses;
mod memory;

pub use clauses::clauses_of;
pub use memory::NoMemory;
