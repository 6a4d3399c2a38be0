//! Preferred values put back into an assignment that a search found (IEEE 1800-2017, 18.4 and 18.6.1): each unknown of a call in turn takes its wanted number where the items that are needed hold with it.
#![tactic(auto)]

mod place;
mod slots;

pub use slots::settle;
