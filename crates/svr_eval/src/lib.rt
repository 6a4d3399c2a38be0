//! Values of typed expressions and truth of constraint items (IEEE 1800-2017, clauses 11 and 18.5).
#![tactic(auto)]

mod assign;
mod env;
mod examples;
mod expr;
mod item;
mod operand;
mod operator;
mod parts;

pub use assign::Assign;
pub use env::Env;
pub use examples::{
    arithmetic_is_as_worked_out, bitwise_is_as_worked_out, cells_are_as_worked_out,
    comparisons_are_as_worked_out, counts_are_as_worked_out, items_are_as_worked_out,
    memberships_are_as_worked_out, reductions_are_as_worked_out, selects_are_as_worked_out,
    shifts_are_as_worked_out, wholes_are_as_worked_out,
};
pub use expr::{value, value_at};
pub use item::{all_hold, holds};
pub use operator::{
    Arithmetic, BinaryKind, Change, Comparison, Connective, Reduction, Shift, UnaryKind,
    binary_kind, fold_operator, fold_start, unary_kind,
};
