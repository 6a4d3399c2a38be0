//! The tests of hinted derivations: texts with their verdicts, and with their first faults.
//!
//! They stand apart, so that the layers are proved once.
#![tactic(auto)]

#[cfg(test)]
mod tests;
#[cfg(test)]
mod written;
