//! The tests of gates and circuits: what was built, on every input.
//!
//! They stand apart, so that the layers are proved once.
#![tactic(auto)]

#[cfg(test)]
mod circuits;
#[cfg(test)]
mod gates;
#[cfg(test)]
mod held;
#[cfg(test)]
mod numbers;
#[cfg(test)]
mod valuations;
