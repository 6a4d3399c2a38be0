//! The tests of expansion.
//!
//! They stand apart, so that the layer is proved once.
#![tactic(auto)]

#[cfg(test)]
mod expansion;
#[cfg(test)]
mod held;
