//! One call of `randomize` (IEEE 1800-2017, 18.6): what it may answer, and what it leaves.
//!
//! What crates above cite: the words of `specs/` (`Call`: the step of a call from world to world; `Items`: answers in terms of the active items).
#![tactic(auto)]

mod laws;
mod outcome;

pub use laws::{
    a_spent_question_has_its_steps, an_answer_0_means_that_nothing_meets_the_items,
    an_answer_1_meets_the_items, an_answer_1_replaces_the_random_properties,
    only_an_answer_1_changes_the_world,
};
pub use outcome::{Dropped, Outcome, Query};
