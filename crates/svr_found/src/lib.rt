//! The assignment that a search found (IEEE 1800-2017, 18.6.1): each unknown of a call has the number that its bits spell under the values of the variables, and all else is as the state has it.
#![tactic(auto)]

mod found;
mod numbers;

pub use found::assignment_found;
