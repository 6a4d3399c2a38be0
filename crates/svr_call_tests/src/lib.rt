//! The tests of objects, flat classes and draws.
//!
//! They stand apart, so that the layers are proved once.
#![tactic(auto)]

#[cfg(test)]
mod classes;
#[cfg(test)]
mod draws;
#[cfg(test)]
mod held;
#[cfg(test)]
mod objects;
