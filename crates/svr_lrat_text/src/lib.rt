//! Files of clauses and hinted derivations: the DIMACS form of a formula, with the lines of an LRAT derivation behind it, as text.
//!
//! `specs/Words.antt` cuts a text into tokens, `specs/File.antt` says which tokens write a file, and
//! `specs/Faults.antt` where the first fault of a text stands. `specs/Reading.antt` holds the same as
//! the reader goes along.
#![tactic(auto)]

mod cursor;
mod entries;
mod examples;
mod fault;
mod header;
mod limits;
mod reader;
mod word;

pub use examples::{commented, small};
pub use fault::LratFault;
pub use limits::{MOST_COUNT, MOST_ID, MOST_SIZE, MOST_TEXT};
pub use reader::read_lrat;
