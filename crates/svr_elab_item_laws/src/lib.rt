//! What is accepted among constraint items is lawful (IEEE 1800-2017, 18.5): items in which nothing is refused have typed items, and these stand in the constraints of every design that has at its numbers what is declared.
//!
//! The functions have empty bodies, and their contracts are the laws.
#![tactic(auto)]

mod law;

pub use law::{accepted_items_are_lawful, accepted_items_have_trees};
