//! The tests of derivations, the search, questions and the priority pass, and of small questions over random circuits.
//!
//! They stand apart, so that the layers are proved once.
#![tactic(auto)]

#[cfg(test)]
mod arenas;
#[cfg(test)]
mod circuit;
#[cfg(test)]
mod clauses;
#[cfg(test)]
mod conflicts;
#[cfg(test)]
mod logs;
#[cfg(test)]
mod memory;
#[cfg(test)]
mod priorities;
#[cfg(test)]
mod questions;
#[cfg(test)]
mod sweeps;
