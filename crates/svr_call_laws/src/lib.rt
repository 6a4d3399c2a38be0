//! Laws of one call of `randomize` (IEEE 1800-2017, 18.6) that look into what its phases ask.
#![tactic(auto)]

mod laws;

pub use laws::an_answer_0_of_the_cyclic_values;
