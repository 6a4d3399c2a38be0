//! The command `cover`: the run of the script behind the cover groups of a text, and the report of what the groups count over its samples (IEEE 1800-2017, clause 19), with the status of its end.
//!
//! `specs/Answers.antt` says what is answered with each status.
#![tactic(auto)]

mod answer;
mod run;
mod source;
mod tell;

pub use source::cover_source;
