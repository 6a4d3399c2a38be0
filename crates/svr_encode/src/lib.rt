//! Expressions as literals over the bits of what is looked for (G. S. Tseitin, 1968; IEEE 1800-2017, clause 11).
//!
//! A node is combined from the vectors of its parts, each of which stands in the context in which it is computed (`specs/Parts.antt`).
#![tactic(auto)]

mod encode;
mod given;
mod leaves;
mod member;
mod node;
mod part;
mod set;

pub use encode::encode_test;
