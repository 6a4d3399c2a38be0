//! What is refused in cover groups over a script (IEEE 1800-2017, clause 19): names, limits and ranges, in the order of the text.
//!
//! `specs/Refusals.antt` says what is refused and where.
#![tactic(auto)]

mod bins;
mod design;
mod fault;
mod groups;
mod limits;
mod names;
mod numbers;
mod parts;
mod ranges;

pub use design::{class_of, prop_of, props_of};
pub use fault::CoverFault;
pub use groups::{check, part_counts, part_names};
pub use limits::{MOST_ALL, MOST_BINS, MOST_GROUPS, MOST_PARTS, MOST_TUPLES};
pub use names::{Places, places_of};
pub use parts::About;
pub use ranges::{ZERO, high, low, size};
