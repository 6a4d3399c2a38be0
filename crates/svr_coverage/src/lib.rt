//! What the cover groups of a text come to (IEEE 1800-2017, clause 19): the script behind them, their counters over its design, or their refusal by its place.
//!
//! `specs/Script.antt` says which script a text has, `specs/Front.antt` which groups it begins with, or why it begins with none, `specs/Counters.antt` which counters they have over a design, or why they are refused.
#![tactic(auto)]

mod classes;
mod counters;
mod fault;
mod front;
mod script;

pub use counters::{Counters, make_counters};
pub use fault::CoverageFault;
pub use front::{Front, read_front};
pub use script::script_of;
