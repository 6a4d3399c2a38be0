//! The bins of a point (IEEE 1800-2017, 19.5) over its stored values in rising order, so that the bins of a value are found by halving.
//!
//! `specs/Steps.antt` says which bins have a value.
#![tactic(auto)]

mod steps;

pub use steps::{Step, Steps, bins_at};
