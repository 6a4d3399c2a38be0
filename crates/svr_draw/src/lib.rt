//! The random words of a call of `randomize`, and the values that it prefers (IEEE 1800-2017, 18.4 and 18.5.4).
#![tactic(auto)]

mod assignment;
mod examples;
mod pick;
mod share;
mod words;

pub use assignment::preferred;
pub use examples::{
    picks_are_as_worked_out, preferred_values_are_as_worked_out, words_are_as_told,
};
pub use words::Draws;
