//! The limits of a script, each stated once: what passes one is refused, and clauses and definitions name it.
#![tactic(auto)]

mod limit;

pub use limit::{
    ARRAY_LIMIT, BUDGET_LIMIT, ELEMENT_LIMIT, HEIGHT_LIMIT, LOOP_LIMIT, MEMBER_LIMIT,
    PROPERTY_LIMIT, STATEMENT_LIMIT, TEXT_LIMIT, VARIABLE_LIMIT, WEIGHT_LIMIT,
};
