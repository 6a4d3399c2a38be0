//! The forms of constraint items: what is known of an item by what is known of its parts, with the first refusal (IEEE 1800-2017, 18.5).
//!
//! `specs/Items.antt` defines what is known of items and sets of them; here is each form of item, and what stands inside of loops. Contracts see the parts by `specs/Seen.antt`.
#![tactic(auto)]

mod dist;
mod examples;
mod form;
mod inside;
mod list;
mod part;
mod root;
mod solve;
mod tree;
mod unique;

pub use dist::{and_dist, plain_item};
pub use examples::{
    disables_are_as_worked_out, distributions_are_as_worked_out, firsts_are_as_worked_out,
    loops_are_as_worked_out, softs_are_as_worked_out, solves_are_as_worked_out,
    uniques_are_as_worked_out,
};
pub use form::{
    and_item, branch_item, disable_item, else_part, foreach_item, implies_item, no_else,
};
pub use inside::in_body;
pub use part::{Around, DistPart, ElsePart, ItemPart, ItemsPart, UniquePart};
pub use solve::solve_item;
pub use unique::{and_member, unique_item};
