//! Types as they are used, and what a property is, with their first refusal (IEEE 1800-2017, clauses 6, 7, 8 and 18.4).
//!
//! `specs/Properties.antt` defines what is known of each, with all refusals or the first one; contracts here have the first one.
#![tactic(auto)]

mod dims;
mod initial;
mod property;
mod used;

pub use dims::{DimsPart, dims_of};
pub use initial::{InitialPart, initial_value};
pub use property::{Before, property_fault, property_of};
pub use used::{Used, UsedPart, data_type, is_wide_cycle};
