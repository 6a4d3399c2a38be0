//! What is accepted among constraint blocks and in-line sets is lawful (IEEE 1800-2017, 18.5 and 18.7): it has typed items that stand in the constraints of every design which has at its numbers what is declared.
//!
//! The functions have empty bodies, and their contracts are the laws.
#![tactic(auto)]

mod law;

pub use law::{accepted_blocks_are_lawful, accepted_blocks_have_trees, accepted_in_line_is_lawful};
