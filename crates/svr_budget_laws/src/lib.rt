//! Laws of one call of `randomize` (IEEE 1800-2017, 18.6) on its questions and encodings: a question is given up only over many bits, so that small ones are always answered; and where an answer carries one encoding for each phase, the proofs of a phase name it.
//!
//! What crates above cite: the words of `specs/` (`Budget`: the bits of a question that was given up; `Questions`: the questions that a call comes to; `Bounds`: how many encodings an answer carries, and which its proofs name) and the lemma files `proofs/Given.antt` (giving up) and `proofs/Named.antt` (encodings that are named).
#![tactic(auto)]

mod laws;

pub use laws::{
    a_question_is_given_up_over_many_bits, one_encoding_is_named, sixteen_bits_are_answered,
    small_questions_are_answered,
};
