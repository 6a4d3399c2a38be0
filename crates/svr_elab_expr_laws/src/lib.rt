//! Laws of what is known of an expression (IEEE 1800-2017, clause 11).
//!
//! What is accepted is typed: `accepted_is_typed`, `accepted_has_tree`. What is read from a text is what elaboration asks of an expression: `what_is_read_fits`, `low_expressions_fit`. Each function has an empty body, and its contract is the law.
#![tactic(auto)]

mod law;

pub use law::{accepted_has_tree, accepted_is_typed, low_expressions_fit, what_is_read_fits};
