//! What an expression reads of a property, and which elements of an array it mentions.
#![tactic(auto)]

mod place;
mod told;

pub use place::reads_at;
pub use told::{PropertyReads, reads};
