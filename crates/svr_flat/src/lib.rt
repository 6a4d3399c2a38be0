//! A class together with what it inherits (IEEE 1800-2017, 8.13 and 18.5.2), and copies of typed trees.
#![tactic(auto)]

mod exprs;
mod inheritance;
mod items;
mod laws;
mod lineage;
mod memory;
mod names;
mod standing;

pub use exprs::{copy_expr, copy_exprs};
pub use inheritance::{flatten, flatten_over};
pub use items::{copy_item, copy_items};
pub use laws::{classes_stand_over_their_bases, derived_class_is_as_worked_out};
pub use lineage::Known;
