//! The priority pass: keeps as many soft constraints as can hold, the first ones first (IEEE 1800-2017, 18.5.14).
//!
//! What crates above cite: the words of `specs/`.
#![tactic(auto)]

mod memory;
mod priority;

pub use memory::NoMemory;
pub use priority::{PassEnd, pass};
