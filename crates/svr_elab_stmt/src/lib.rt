//! The forms of statements: what is known of a statement by what is known of its parts, with its first refusal (IEEE 1800-2017, clauses 8.7, 10, 12 and 18).
//!
//! `specs/Stmts.antt` defines what is known of statements. Contracts see each form as it stands there, with the first refusal in the place of all of them.
#![tactic(auto)]

mod assignment;
mod call;
mod list;
mod mode;
mod part;
mod pattern;
mod set;

pub use assignment::{given, made_new, pattern_stmt, resize_stmt};
pub use call::{call_on, call_on_none};
pub use list::{and_stmt, block_stmt, no_stmts, repeat_stmt};
pub use mode::mode_stmt;
pub use part::{StmtPart, StmtsPart, ValuesPart};
pub use pattern::values;
