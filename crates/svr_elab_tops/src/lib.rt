//! The types and classes of a script, in the order of the text, with their first refusal (IEEE 1800-2017, 3.13).
//!
//! `specs/InOrder.antt` defines what is known after them, with all refusals or the first one; contracts here have the first one.
#![tactic(auto)]

mod order;

pub use order::types_and_classes;
