//! What is known of an expression, and what its forms make of that (IEEE 1800-2017, clause 11).
//!
//! `specs/Elab.antt` defines what is known of each form of expression: its size and sign, its typed tree, its refusals and what it reads. Here are the parts of that: shapes, forms, reads, typed trees of names and arrays, and the numbers that constants are.
#![tactic(auto)]

mod array;
mod constant;
mod form;
mod held;
mod part;
mod place;
mod reads;
mod shape;

pub use array::{
    array_node, cell_tree, element_tree, fold_tree, item_tree, loop_tree, property_tree, size_tree,
};
pub use constant::known;
pub use held::{beside, both};
pub use part::{BoundPart, Extent, Form, Part, Parts, RangePart, RangesPart, Reads, Root, Shape};
pub use shape::{
    binary_shape, choice_shape, kind_shape, sign_shape, total_shape, typed_as, unary_shape,
};
