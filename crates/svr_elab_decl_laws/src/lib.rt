//! Laws of declarations: the first refusal is the first of all of them.
#![tactic(auto)]

mod law;

pub use law::{keeps_the_first, tells_the_first};
