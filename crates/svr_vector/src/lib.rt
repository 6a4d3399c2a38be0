//! Values of expressions as vectors of literals, over operands that are vectors already (IEEE 1800-2017, clauses 7.4, 11.4, 11.5 and 11.8). Vectors stand least bit first.
//!
//! Each call says what it gives by a definition of `svr_eval`: in every valuation that meets the clauses, the literals read as that value. The builder is only ever extended, after want of memory too. What crates above cite: the words of `specs/`, and the lemma files `proofs/LiteralLemmas.antt` and `proofs/PickLemmas.antt`.
#![tactic(auto)]

mod bitwise;
mod literals;
mod memory;
mod operator;
mod pick;
mod place;

pub use bitwise::{Gate, of_bits};
pub use literals::{constant, constant_at, filled_at, literal_at, numeral, truth_at};
pub use memory::NoMemory;
pub use operator::{changed, combined, compared, connected, fold_start, reduced, shifted, test};
pub use pick::{copied, picked};
pub use place::{bits_from, index_below, known_number, read};
