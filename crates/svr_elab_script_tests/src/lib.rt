//! The tests of elaboration by whole scripts: texts with the number of their refusal and the line and column of its place, and texts beside them that have a design.
//!
//! They stand apart, so that elaboration is proved once.
#![tactic(auto)]

#[cfg(test)]
mod items;
#[cfg(test)]
mod limits;
#[cfg(test)]
mod names;
#[cfg(test)]
mod places;
#[cfg(test)]
mod saying;
#[cfg(test)]
mod statements;
#[cfg(test)]
mod types;
