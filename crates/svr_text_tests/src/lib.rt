//! The tests of the layers of text: what bytes spell, tokens, the steps of readers, places, and where bytes come from and go to.
//!
//! They stand apart, so that the layers are proved once.
#![tactic(auto)]

#[cfg(test)]
mod ends;
#[cfg(test)]
mod places;
#[cfg(test)]
mod spellings;
#[cfg(test)]
mod steps;
#[cfg(test)]
mod texts;
