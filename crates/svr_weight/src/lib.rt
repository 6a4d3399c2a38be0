//! What the items of a phase weigh (IEEE 1800-2017, 18.5): a measure of the clauses that they become, added up without expanding them.
#![tactic(auto)]

mod around;
mod cost;
mod examples;
mod items;
mod phase;
mod tally;
mod unique;

pub use examples::weights_are_as_worked_out;
pub use phase::weight;
