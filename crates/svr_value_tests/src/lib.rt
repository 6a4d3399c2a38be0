//! The tests of numbers, typed trees and values.
//!
//! They stand apart, so that the layers are proved once.
#![tactic(auto)]

#[cfg(test)]
mod numbers;
#[cfg(test)]
mod typed_trees;
#[cfg(test)]
mod values;
