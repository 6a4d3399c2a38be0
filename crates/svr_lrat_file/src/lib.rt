//! Files of clauses and hinted derivations, as data: a formula in conjunctive normal form, and the lines of a derivation from it (LRAT).
#![tactic(auto)]

mod file;

pub use file::{Line, LratFile, Number};
