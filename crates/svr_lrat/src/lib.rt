//! Texts with clauses in DIMACS form and hinted derivations from them (LRAT): the check of such a text, and the text of a refutation.
#![tactic(auto)]

mod check;
mod write;

pub use check::check_lrat;
pub use write::to_lrat;
