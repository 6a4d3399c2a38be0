//! What statements name: the left sides of assignments, and objects with the properties and blocks of their classes (IEEE 1800-2017, 8.7, 10.4, 18.6.1, 18.8, 18.9 and 18.11).
//!
//! Contracts say what stands in `specs/Targets.antt`, `specs/Named.antt` and `specs/Blocks.antt`, with the first refusal in the place of all of them.
#![tactic(auto)]

mod chain;
pub mod examples;
mod list;
mod member;
mod path;
mod property;
mod space;
mod target;

pub use chain::FlatNames;
pub use list::{call_list, list_fault};
pub use member::{mode_member, wrong_member, wrong_rest};
pub use path::{Object, ObjectPath, object_path, unknown_at, use_fault};
pub use property::class_property;
pub use space::{and_made, in_line, with_made};
pub use target::{
    Target, answer_fault, array_fault, object_fault, resizable_fault, settable_fault,
};
