//! What elaboration knows that an expression of a constraint reads is what its typed tree mentions (IEEE 1800-2017, 18.4 and 18.5).
//!
//! Refusals ask what is read (whether an index, a weight or a guard can be random, whether a soft item is over something cyclic), and a lawful design says the same of its trees. The function has an empty body, and its contract is the law.
#![tactic(auto)]

mod law;

pub use law::what_is_read_is_mentioned;
