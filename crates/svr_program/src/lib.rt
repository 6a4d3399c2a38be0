//! All that the program does: the top call `run`, whose contract says what is written, and with which status it ends, by the words and the text alone; and what follows of that.
//!
//! `specs/Outcome.antt` says what is written, `specs/Complete.antt` which texts are answered.
#![tactic(auto)]

mod laws;
mod top;

pub use laws::{
    checks_are_complete, coverage_is_complete, lines_are_complete, runs_are_complete,
    small_coverage_is_answered, small_runs_are_answered,
};
pub use top::run;
