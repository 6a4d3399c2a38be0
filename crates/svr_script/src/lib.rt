//! Runs of a script (IEEE 1800-2017, clauses 8, 10, 12 and 18): what each statement does, what each call tells, and what is printed of it.
//!
//! What crates above cite: the words of `specs/` (`Statement`: the effect of a statement; `Run`: runs, their texts and counts; `Printed`, `ProofText`, `Derived`: the text of a call; `Conflicts`: which items of it contradict each other; `Ending`: how a run ends) and the lemma files `proofs/Runs.antt` (runs are joined, cut and go on), `proofs/Conflicts.antt` and `proofs/Endings.antt`.
#![tactic(auto)]

mod laws;

pub use laws::{
    a_limit_is_met_in_the_last_call, a_run_ends_or_goes_on, a_run_has_one_ending,
    calls_are_numbered_in_their_order, conflicts_are_those_of_the_calls, each_call_is_counted_once,
    each_unmet_call_has_its_line, nothing_is_told_unasked, texts_are_as_worked_out,
    texts_grow_at_the_end,
};
