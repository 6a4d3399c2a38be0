//! Types and enums become typed ones, with their first refusal (IEEE 1800-2017, 6.11, 6.18 and 6.19).
//!
//! `specs/Types.antt` defines what is known of each declaration, with all refusals or the first one; contracts here have the first one.
#![tactic(auto)]

mod constant;
mod enums;
pub mod examples;
mod global;
mod typedef;
mod types;

pub use constant::{Constant, constant_at, elements, is_below, is_other, let_go};
pub use enums::{EnumPart, enum_members};
pub use global::{NoNames, and_name, declaring, double};
pub use typedef::{Globals, type_decl};
pub use types::{TypePart, base_type, integer_type};
