//! A conflict-driven search over clauses that logs its derivations (J. P. Marques-Silva and K. A. Sakallah, 1999).
//!
//! What crates above cite: the words of `specs/Search.antt` and `specs/Learned.antt`, those of
//! `svr_trail`, and the lemma file `proofs/Decided.antt` (which entries were decided).
#![tactic(auto)]

mod analyse;
mod explain;
mod level;
mod marks;
mod memory;
mod minimize;
mod search;

pub use analyse::Learned;
pub use memory::NoMemory;
pub use search::Search;
