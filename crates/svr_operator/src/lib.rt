//! Operators and qualifiers of the language, as the written tree and the typed tree share them (IEEE 1800-2017, clauses 7, 11 and 18).
//!
//! The crate holds types alone. One that has two spellings has a variant for each, so that a tree spells one text.
#![tactic(auto)]

mod fold;
mod operator;
mod rand;
mod share;

pub use fold::Fold;
pub use operator::{BinOp, UnOp};
pub use rand::Rand;
pub use share::Share;
