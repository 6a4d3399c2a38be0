//! Counters of the bins of points and of the tuples of crosses (IEEE 1800-2017, 19.5, 19.6 and 19.8), over the samples of a run.
//!
//! All counters stand in one list. A sample counts one more at the counter of each group of its class, at those of the bins that have its values, and at those of the tuples of such bins.
//! `specs/Points.antt`, `specs/Tuples.antt` and `specs/Sampling.antt` say which these are.
#![tactic(auto)]

mod counters;
mod cover;
mod group;
mod point;
mod tuple;

pub use cover::{Cover, MOST_SAMPLES};
pub use group::{Cross, Group};
pub use point::Point;
