//! Laws of preferred values put back into an assignment that a search found (IEEE 1800-2017, 18.4 and 18.6.1).
#![tactic(auto)]

mod laws;

pub use laws::{unmentioned_unknowns_are_as_wanted, unmentioned_unknowns_are_preferred};
