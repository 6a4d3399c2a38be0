//! The numbers of a report are numbers of samples (IEEE 1800-2017, 19.5, 19.6 and 19.8).
//!
//! `specs/Numbers.antt` says which samples those are.
#![tactic(auto)]

mod laws;

pub use laws::reports_tell_numbers_of_samples;
