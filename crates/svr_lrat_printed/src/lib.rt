//! The text of a file of clauses and a hinted derivation (DIMACS and LRAT).
//!
//! `specs/Text.antt` says which text that is; `proofs/ReadBack.antt` shows that a file within the limits is
//! read back from it.
#![tactic(auto)]

mod text;

pub use text::printed;
