//! What is accepted in a constraint stands in a lawful design (IEEE 1800-2017, 11.5.1 and 18.5): names are numbers of what may stand there, with its type; loops stand around their indexes; bits are numbered by declared ranges.
//!
//! The function has an empty body, and its contract is the law.
#![tactic(auto)]

mod law;

pub use law::what_is_accepted_stands;
