//! Refusals of elaboration with their places, and the first of them.
//!
//! `specs/Refusals.antt` defines which of several refusals comes first, and a way to gather them that serves both the definition of a refusal, which reads all of them, and the code, which keeps the first.
#![tactic(auto)]

mod fault;

pub use fault::{ElabFault, Fault, earlier, first_is_first, when};
