//! Questions to the search: satisfiability under assumptions, within a budget of steps.
#![tactic(auto)]

mod learn;
mod limit;
mod memory;
mod model;
mod needed;
mod order;
mod propagate;
mod restarts;
mod run;
mod solver;
mod sweep;
mod walk;

pub use memory::NoMemory;
pub use solver::{Answer, Solver};
