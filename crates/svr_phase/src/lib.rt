//! The phases of a call of `randomize` (IEEE 1800-2017, 18.4.2 and 18.6): cyclic values, sizes, values. What each asks, how it ends, and what proofs and spent questions have to show.
//!
//! What crates above cite: the words of `specs/` (`Cyclic`, `Sizes`: what may be chosen; `Chosen`: values of all cyclic properties; `Spent`, `Proof`: what an answer carries; `Ends`: how a phase is reached and how it ends) and the lemma files `proofs/Fitting.antt` (assignments are within the bits), `proofs/Refutes.antt` (what a proof shows), `proofs/Allowed.antt` (the sizes of a call fit its frame, and are within the cap), `proofs/Preferred.antt` (preferred values with the chosen ones are an assignment), `proofs/Chosen.antt` and `proofs/ChosenValues.antt` (chosen values are of their domains, and what bits that spell them read as), `proofs/KeptItems.antt` (items that are kept).
#![tactic(auto)]

mod assumed;
mod choice;
mod laws;
mod options;
mod proof;

pub use assumed::{Assumed, Pieces};
pub use choice::Choice;
pub use laws::{
    a_proof_refutes_all_assignments, choices_are_as_worked_out, chosen_values_are_not_used,
    chosen_values_are_of_their_domains, sizes_of_a_call_fit,
};
pub use options::Options;
pub use proof::{Proof, ProofReason, Renewed};
