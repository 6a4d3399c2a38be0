//! Items of a phase as clauses over the bits of its unknowns (G. S. Tseitin, 1968; IEEE 1800-2017, clauses 11 and 18.5).
//!
//! `blast` meets `Encodes` of `svr_encoded`, which says what its clauses and roots mean.
#![tactic(auto)]

mod question;

pub use question::blast;
