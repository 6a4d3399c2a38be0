//! `randsequence` (IEEE 1800-2017, 18.17) and `randcase` (18.16): the tree of a text after its names were resolved, and the line of names that it makes of the words of a seed.
//!
//! `specs/SeqTerm.antt` has the tree as plain data, `Sound.antt` what is asked of it, `Line.antt` the line as a function of the words, and `Derives.antt` the lists of names that it can print.
#![tactic(auto)]

mod examples;
mod laws;
mod limits;
mod line;
mod stack;
mod tree;
mod weights;

pub use examples::{choices_are_as_worked_out, lines_are_as_worked_out};
pub use laws::lines_are_derived;
pub use limits::{CHOICE_LIMIT, REPEAT_LIMIT, SEQUENCE_LIMIT, UNIT_LIMIT};
pub use line::{SeqEnd, derive};
pub use tree::{Act, Branch, Part, Production, Rule, Seq};
