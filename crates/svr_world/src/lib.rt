//! The objects of a script: values, modes and used values, and its other variables (IEEE 1800-2017, clause 8 and 18.8 to 18.9).
#![tactic(auto)]

mod change;
mod lists;
mod memory;
mod object;
mod watch;
mod world;

pub use change::{Change, Replacement};
pub use watch::Watch;
pub use world::World;
