//! The phase of cyclic random properties of a call (IEEE 1800-2017, 18.4.2): each in flat order takes the first of its tried values that fits behind those before it. Where no unused value fits, a new cycle begins; where none of the domain does, the call answers 0.
//!
//! What crates above cite: the words of `specs/Ends.antt`.
#![tactic(auto)]

mod ask;
mod choose;
mod look;
mod memory;
mod phase;
mod property;
mod row;
mod single;
mod solving;
mod used;
mod values;

pub use choose::{Chosen, CyclicEnd, choose_randc};
pub use memory::NoMemory;
