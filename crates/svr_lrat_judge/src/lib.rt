//! The verdict on a file of clauses and hinted derivations (LRAT).
//!
//! `specs/Verdict.antt` says what each line may be and why a file is rejected; `proofs/Sound.antt` shows
//! that no valuation meets the clauses of an accepted file.
#![tactic(auto)]

mod derivation;
mod examples;
mod hints;
mod known;
mod lemma;
mod verdict;

pub use derivation::judge;
pub use examples::{derivations, lines};
pub use verdict::{LratReason, LratVerdict};
