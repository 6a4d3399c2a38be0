//! Expressions, read from tokens (IEEE 1800-2017, A.8 and table 11-2).
//!
//! Each function gives what its program in `specs/ExprRules.antt` gives, with the tokens that are left, or its fault. `room` is the greatest height that there is room for.
//!
//! What crates above cite: `specs/ExprRules.antt`, and `proofs/Anywhere.antt`, by which names and paths come to the same in the programs of other constructs.
#![tactic(auto)]

mod beside;
mod climb;
mod connective;
mod lists;
mod names;
mod node;
mod operand;
mod reader;
mod reduce;
mod suffix;

pub use beside::{enter_beside, expect_beside, take_beside};
pub use connective::{Connective, connective_of, unary_of};
pub use names::{known_path, path_on, starts_path};
pub use node::{
    expr, exprs, member, member_on, path, range, rest_of_operand, rest_of_path, starts_expr,
};
pub use reduce::owner;
pub use suffix::with_parens;
