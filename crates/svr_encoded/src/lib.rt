//! Clauses for the items of a phase of a call, as data, and what they mean (G. S. Tseitin, 1968): the unknowns, the bits of each, which are the first variables, and a literal for each item (`specs/Encodes.antt`).
//!
//! What crates above cite: the words of `specs/`, and the lemma files `proofs/EncodedLemmas.antt` (what a finished circuit gives), `proofs/Reached.antt` (`reached`, `satisfied`, `refuted`) and `proofs/ServedLemmas.antt` (the items of a sound frame can be read).
#![tactic(auto)]

mod encoded;
mod slots;

pub use encoded::{Encoded, positive_rows, slot_widths, total};
pub use slots::table_of;
