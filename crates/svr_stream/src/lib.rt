//! Texts that go to a sink piece by piece, gathered in a buffer of fixed size: no text stands in memory as a whole, and no allocation can be refused.
//!
//! What crates above cite beside `Pending`: the words of `specs/` (`Puts`: what a text has done to a sink and to what waits).
#![tactic(auto)]

mod pending;
#[cfg(test)]
mod tests;

pub use pending::Pending;
