//! The proofs of an answer as hinted derivations: each over the clauses of the encoding that it names, in the form that `svr_lrat` reads and judges.
//!
//! `put_derivations` is `derivations_of` of `svr_script`, byte by byte. Its texts go to a sink one after the other, so that one derivation at a time stands in memory. What it asks, that each proof is shown, is a law of the step of a call.
//!
//! What crates above cite: the words of `specs/` (`Shown`: what is known of the proofs of an answer; `Fronts`: a text of which a front has gone) and the lemma files `proofs/Fronts.antt` (fronts and what stands before and behind them) and `proofs/Showing.antt` (the proofs of a call's answer are shown).
#![tactic(auto)]

mod derivation;
mod derivations;
mod laws;

pub use derivations::put_derivations;
pub use laws::each_proof_of_a_call_is_shown;
