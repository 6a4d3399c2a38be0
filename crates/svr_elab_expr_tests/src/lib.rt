//! The tests of what is known of expressions: short texts, with their first refusal, or their size and sign.
//!
//! They stand apart, so that elaboration is proved once.
#![tactic(auto)]

#[cfg(test)]
mod blocks;
#[cfg(test)]
mod outcome;
#[cfg(test)]
mod places;
#[cfg(test)]
mod reading;
#[cfg(test)]
mod sets;
#[cfg(test)]
mod statements;
