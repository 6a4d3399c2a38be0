//! Constraint items, read from tokens (IEEE 1800-2017, A.1.10).
//!
//! Each function gives what its program in `specs/ItemRules.antt` gives, with the tokens that are left, or its fault. `room` is the greatest height that there is room for.
#![tactic(auto)]

mod behind;
mod block;
mod dist;
mod expr_items;
mod items;
mod led;
mod reader;
mod sets;
mod starts;

pub use behind::{ended, named, pushed};
pub use block::{block_item, block_items};
pub use items::{item, set_items};
