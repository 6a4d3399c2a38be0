//! The question of a call for values that meet its hard items and as many soft ones as can hold (IEEE 1800-2017, 18.5.14 and 18.6.1), with the cyclic values that were chosen, over clauses that encode the items: values that do, with the fate of each soft item; a proof that none meet the hard ones; or a log that spent the budget.
//!
//! What crates above cite: the words of `specs/Ends.antt` and the lemma files `proofs/Chosen.antt` (a valuation that makes the literals of chosen cyclic values true reads as an assignment that has them), `proofs/Bridge.antt` (from literals to items, in each phase), `proofs/Ranks.antt` and `proofs/Fated.antt` (fates and the ranks that a pass keeps), `proofs/Roots.antt` (what the search asks of bits and roots), `proofs/Spellings.antt` (rows by their places) and `proofs/Kept.antt` (an encoding whose clauses were given back).
#![tactic(auto)]

mod ask;
mod fates;
mod fixed;
mod literals;
mod memory;
mod prefer;

pub use ask::{Asked, Met, Passed, Question, ValuesEnd, ask_values, base_of, behind, pass_over};
pub use fixed::fixed_literals;
pub use literals::{joined, number_read};
pub use memory::NoMemory;
pub use prefer::preferences;
