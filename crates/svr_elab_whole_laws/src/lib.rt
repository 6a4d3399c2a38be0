//! What elaboration accepts is lawful: a script that was read and in which nothing is refused has a design, its constraint blocks and in-line sets stand in it, and it is lawful (IEEE 1800-2017, clauses 6, 8, 11 and 18).
//!
//! The functions have empty bodies, and their contracts are the laws.
#![tactic(auto)]

mod law;

pub use law::{
    accepted_blocks_stand, accepted_has_a_design, accepted_sets_stand, what_is_accepted_is_lawful,
};
