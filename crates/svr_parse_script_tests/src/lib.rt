//! The tests of the parser: whole scripts, with the kinds of their items, statements and declarations, and their faults.
//!
//! They stand apart, so that the parser is proved once.
#![tactic(auto)]

#[cfg(test)]
mod scripts;
#[cfg(test)]
mod wanted;
