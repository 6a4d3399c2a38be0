//! The assignment of an answer 1 behind a question (IEEE 1800-2017, 18.6.1): it meets the hard items and the kept soft ones, with the cyclic values that were chosen, and what no item mentions has its preferred value.
#![tactic(auto)]

mod memory;
mod solve;

pub use memory::NoMemory;
pub use solve::solution;
