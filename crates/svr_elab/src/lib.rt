//! A whole script becomes a design, or is refused with its first refusal (IEEE 1800-2017, clauses 3, 6, 8 and 18).
//!
//! `specs/Script.antt` defines every refusal of a script and its design, `specs/Promise.antt` what `elab_script` promises of them.
#![tactic(auto)]

mod design;
mod elab;
mod law;
mod property;
mod whole;

pub use elab::elab_script;
pub use law::keeps_the_first;
pub use whole::{ScriptPart, script};
