//! Which items of a call contradict each other (IEEE 1800-2017, 18.5): where no assignment meets its hard items, a set of them that cannot be met together, of which none can be left out.
//!
//! `conflict_set` is the question; `specs/Ends.antt` says how it ends.
#![tactic(auto)]

mod ask;
mod cut;
mod found;
mod memory;
mod over;

pub use ask::conflict_set;
pub use found::{Conflict, ConflictEnd, Member};
pub use memory::NoMemory;
