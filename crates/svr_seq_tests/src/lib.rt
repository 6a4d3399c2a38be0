//! The tests of texts of `randsequence` and of the lines that they print.
//!
//! They stand apart, so that the layer is proved once.
#![tactic(auto)]

#[cfg(test)]
mod lines;
#[cfg(test)]
mod texts;
#[cfg(test)]
mod written;
