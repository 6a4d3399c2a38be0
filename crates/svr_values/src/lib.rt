//! The values of an answer 1 (IEEE 1800-2017, 18.6.1): those that a call prefers, whether they meet its items, and the lists of numbers that the object is to have.
#![tactic(auto)]

mod chosen;
mod hold;
mod needed;
mod numbers;
mod wishes;

pub use hold::all_hold;
pub use needed::needed_fault;
pub use numbers::random_numbers;
pub use wishes::{wanted, wanted_in};
