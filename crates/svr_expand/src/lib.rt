//! The items of a phase of a call as closed expressions (IEEE 1800-2017, 18.5 and 18.5.14).
#![tactic(auto)]

mod around;
mod domain;
mod examples;
mod finding;
mod guards;
mod held;
mod pairs;
mod phase;
mod slots;
mod sort;
mod state;
mod targets;
mod walk;

pub use examples::orders_are_as_worked_out;
pub use phase::expand;
pub use slots::unknowns;
pub use sort::Expansion;
