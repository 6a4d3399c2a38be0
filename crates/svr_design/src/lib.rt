//! What holds of every design that elaboration gives: `specs/Lawful.antt`, one condition a line.
//!
//! Two designs that were worked out by hand are lawful, and neither is where one of its choices is wrong: `specs/Examples.antt` and `specs/Forms.antt`. Each function has an empty body, and its contract is the statement.
#![tactic(auto)]

mod examples;
mod forms;

pub use examples::{
    what_is_as_written_is_lawful, wrong_classes_are_not_lawful, wrong_constraints_are_not_lawful,
    wrong_statements_are_not_lawful, wrong_types_are_not_lawful,
};
pub use forms::{each_form_is_lawful, wrong_items_are_not_lawful, wrong_places_are_not_lawful};
