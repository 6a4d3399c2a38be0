//! The items of a call, as closed expressions, can be evaluated and made into clauses (IEEE 1800-2017, 18.5): they are typed, what an assignment of a phase has for them fits, and they stand in the frame.
//!
//! What crates above cite: `specs/Ready.antt`, and the lemma files `proofs/Ready.antt` and `proofs/Domains.antt` (the latter by phase, and for the last one whole).
#![tactic(auto)]

mod laws;

pub use laws::closed_items_are_ready;
