//! What is accepted is lawful (IEEE 1800-2017, clauses 6, 8 and 18): a script in which nothing is refused has a design, and what `svr_design` says of designs holds of it.
//!
//! Each function has an empty body, and its contract is the law.
#![tactic(auto)]

mod law;

pub use law::{
    accepted_has_design, accepted_reads, blocks_are_few, classes_are_lawful,
    constants_have_numbers, enums_are_lawful, lawful_but_for_walks, objects_are_made, places_stand,
    random_is_lawful, statements_are_few, variables_are_lawful,
};
