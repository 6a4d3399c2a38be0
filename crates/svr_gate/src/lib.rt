//! Gates of any table as clauses, over which circuits are built (G. S. Tseitin, 1968).
//!
//! A gate that is a constant or one of its inputs takes no clauses, a gate that is defined again is
//! answered again, and the tables of sums, choices and logic take fewer clauses than rows.
//!
//! What crates above cite: the words of `specs/Circuit.antt`, `specs/Numbers.antt` and
//! `specs/Gates.antt`, and the lemma files `proofs/Circuits.antt` (a circuit that extends another),
//! `proofs/Vectors.antt` (literals that give a number), `proofs/NumberLemmas.antt` (numbers of lists
//! of literals) and `proofs/TableLemmas.antt` (what the named tables say of their inputs).
#![tactic(auto)]

mod builder;
mod cover;
mod fold;
mod gate;
mod known;
mod memory;
mod row;
mod tables;

pub use builder::Builder;
pub use memory::NoMemory;
