//! A lawful design can be run: whatever a run of it has come to, what its next statement asks holds (IEEE 1800-2017, clauses 8, 10, 12 and 18).
//!
//! The functions have empty bodies, and their contracts are the laws.
#![tactic(auto)]

mod law;

pub use law::{a_lawful_design_can_run, a_lawful_design_is_sampled};
