//! What an encoding reads (IEEE 1800-2017, clause 7.4): a state, and bits in place of the numbers that are looked for.
//!
//! Elements, sizes and script variables are given as vectors of literals by their values under the assignment that the bits read as (`read_at`). The bits of an unknown are found by a key, in constant time. What crates above cite: the words of `specs/`.
#![tactic(auto)]

mod elements;
mod inputs;
mod table;

pub use elements::{cell_of, element_of, is_some_element};
pub use inputs::{Inputs, element_at, script_at, size_at};
pub use table::Table;
