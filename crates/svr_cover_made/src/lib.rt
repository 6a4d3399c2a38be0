//! The counters that cover groups ask for, and what their report names (IEEE 1800-2017, clause 19), made of groups in which nothing is refused.
//!
//! `specs/Stored.antt` says which stored values a bin has, `specs/Named.antt` how bins are named, `specs/Plan.antt` which counters the groups have, `specs/Made.antt` what is made of them.
#![tactic(auto)]

mod groups;
mod laws;
mod made;
mod named;
mod plan;
mod stored;

pub use laws::stored_values_are_their_numbers;
pub use made::{Made, make};
