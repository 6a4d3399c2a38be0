//! The constraint blocks of classes, typed, with the order that their `solve` items give, and in-line sets of constraints (IEEE 1800-2017, 18.5.2, 18.5.10 and 18.7).
//!
//! One pass over the bodies of all classes in text order. Contracts see it as `specs/Blocks.antt` defines it, with the first refusal in the place of all of them.
#![tactic(auto)]

mod body;
mod cycle;
mod examples;
mod family;
mod inherit;
mod law;
mod part;
mod place;
mod solve;

pub use body::class_bodies;
pub use examples::{
    doubles_are_as_worked_out, inheritances_are_as_worked_out, loops_are_as_worked_out,
    names_are_as_worked_out,
};
pub use law::keeps_the_first;
pub use part::{BodiesPart, ClassOrders};
pub use place::in_line;
