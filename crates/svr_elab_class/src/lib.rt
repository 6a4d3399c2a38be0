//! Classes with their properties in flat order and the names of the blocks that they declare, with their first refusal (IEEE 1800-2017, clause 8).
//!
//! `specs/Classes.antt` defines what is known of a class, with all refusals or the first one; contracts here have the first one.
#![tactic(auto)]

mod class;
pub mod examples;
mod head;
mod later;
mod property;

pub use class::{class_decl, label_fault};
pub use head::{ClassHead, ClassPart};
