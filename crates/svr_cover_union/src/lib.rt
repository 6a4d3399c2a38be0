//! The bins of a point (IEEE 1800-2017, 19.5) as steps over its stored values, made of the ranges of each bin.
//!
//! `specs/Union.antt` says which bins have a value.
#![tactic(auto)]

mod ranges;
mod union;

pub use ranges::{Range, of_bins};
