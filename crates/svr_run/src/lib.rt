//! A script as it runs (IEEE 1800-2017, clauses 8, 10, 12 and 18): its statements in their order, and the text of its calls, which is written call by call.
//!
//! `run_watched` makes a run of `svr_script`, and calls a watch behind each call that answers 1; `run_script_extra` makes one that nobody watches, and `run_script` one of which nothing is told besides. It walks over the tree of the statements and holds one world, so that neither its memory nor its stack grows with the count of a `repeat`. What crates above cite beside it: the words of `specs/` (`CanRun`: what is asked of a script; `Ends`: how a run ends and what it wrote; `Telling`: what the sinks tell).
#![tactic(auto)]

mod call;
mod conflict;
mod extra;
mod plain;
mod progress;
mod run;
mod script;
mod stop;
mod tell;
mod turns;
mod walk;
mod watched;

pub use extra::Extra;
pub use progress::Counts;
pub use run::{End, run_script, run_script_extra, run_watched};
pub use stop::Stop;
