//! The report of coverage: a line for each group, point, cross, bin and tuple, with their counts (IEEE 1800-2017, clause 19).
//!
//! `specs/Report.antt` says which text that is.
#![tactic(auto)]

mod counts;
mod groups;
mod names;
mod text;

pub use groups::report;
pub use names::{CrossNames, GroupNames, PartNames, PointNames};
