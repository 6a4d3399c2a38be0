//! What `solve` items order, and the first of them that orders a property before itself (IEEE 1800-2017, 18.5.10).
//!
//! Items and properties are nodes of one graph: an item comes behind its first names, and a property behind each item that has it among its later ones. No item orders a property before itself exactly where every way back through that graph has an end. There the order in which nodes are settled gives each property a rank, lower for the first names of an item than for its later ones; items that agree with such ranks need no search.
#![tactic(auto)]

mod behind;
mod find;
mod flags;
mod graph;
mod law;
mod order;
mod ranking;
mod ranks;
mod refuse;
mod search;
mod settle;

pub use behind::are_behind;
pub use find::ranks_of;
pub use law::{chains_are_as_worked_out, comes_by_items, keeps_the_first, loops_are_as_worked_out};
pub use order::Order;
pub use ranks::Ranks;
pub use refuse::cycle_fault;
