//! Statements, read from tokens (IEEE 1800-2017, A.6 and A.8.2).
//!
//! Each reader answers with the height beside the tree, and gives what its production in `specs/StmtRules.antt` gives.
#![tactic(auto)]

mod calls;
mod held;
mod method;
mod reader;
mod right;
mod statement;
mod target;

pub use method::Method;
pub use statement::{stmt, stmt_on};
