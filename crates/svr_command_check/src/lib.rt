//! The command `check`: the verdict on a text of clauses and a hinted derivation from them, with the status of its end.
//!
//! `specs/Answers.antt` says what is answered with each status.
#![tactic(auto)]

mod check;

pub use check::check_source;
