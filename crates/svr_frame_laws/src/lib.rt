//! Laws of what a call asks (IEEE 1800-2017, 18.5): the occurrences of the items of a frame hold exactly where the items do, and their closed expressions are not 0 exactly where they hold.
#![tactic(auto)]

mod laws;

pub use laws::{closed_expressions_are_the_occurrences, hard_occurrences_are_the_items};
