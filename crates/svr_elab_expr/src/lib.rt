//! Expressions become typed ones, with their first refusal (IEEE 1800-2017, clause 11).
//!
//! One walk over the tree of an expression. Its clauses say that what is known of an expression is what `specs/Elab.antt` of `svr_elab_part` defines.
#![tactic(auto)]

mod expr;
mod held;

pub use expr::{bound, elab, range, ranges, value};
pub use held::{beside, both};
