//! The names by which the active items of a call are told (IEEE 1800-2017, 18.5, 18.7 and 18.9).
#![tactic(auto)]

mod names;

pub use names::item_names;
