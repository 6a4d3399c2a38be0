//! The tests of frames of calls.
//!
//! They stand apart, so that the layer is proved once.
#![tactic(auto)]

#[cfg(test)]
mod frames;
