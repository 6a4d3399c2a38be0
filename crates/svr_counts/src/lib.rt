//! How many hard occurrences each active item of a call has (IEEE 1800-2017, 18.5), counted without making them.
//!
//! What crates above cite: `specs/Hard.antt`, and the lemma file `proofs/Counted.antt`.
#![tactic(auto)]

mod items;
mod members;

pub use items::hard_counts;
