//! The command `seq`: the lines of a text of `randsequence` (IEEE 1800-2017, 18.16 and 18.17), with the status of its end.
//!
//! `specs/Answers.antt` says what is answered with each status.
#![tactic(auto)]

mod seq;

pub use seq::seq_source;
