//! Elaboration of a whole script (IEEE 1800-2017, clauses 6 to 12 and 18): its design, which is lawful, or its first refusal.
#![tactic(auto)]

mod design;

pub use design::elaborate;
