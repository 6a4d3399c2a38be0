//! Laws of runs of a script on the bits of their questions: each call that gives up does so over many bits, and where all questions are small none does.
//!
//! What crates above cite: the words of `specs/Runs.antt`, and the lemma file `proofs/Along.antt`.
#![tactic(auto)]

mod laws;

pub use laws::{a_run_gives_up_over_many_bits, a_run_of_small_questions_answers_all};
