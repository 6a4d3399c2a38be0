//! A script of as many classes as one likes, an object of each and a call on each object: work for the program, made from a number.
//!
//! `specs/Script.antt` has the script line by line.
#![tactic(auto)]

mod load;
mod memory;
#[cfg(test)]
mod tests;

pub use load::load_text;
pub use memory::NoMemory;
