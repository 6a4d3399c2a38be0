//! The tests of items as clauses: one item for each operator over operands of four bits, with all values tried through the clauses.
//!
//! They stand apart, so that the layer is proved once.
#![tactic(auto)]

#[cfg(test)]
mod clauses;
#[cfg(test)]
mod encoding;
mod form;
#[cfg(test)]
mod held;
#[cfg(test)]
mod items;
#[cfg(test)]
mod sample;
#[cfg(test)]
mod truth;

pub use form::Form;
