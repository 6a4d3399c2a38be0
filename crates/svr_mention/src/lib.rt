//! What an occurrence mentions in a phase of a call, with the indexes of elements as numbers (IEEE 1800-2017, 18.5 and 18.5.14.2), and whether it counts there.
//!
//! `Mentioned` in `specs/` turns what `Reads` of `svr_frame` says that an occurrence reads into mentions; the functions promise exactly those, in their order.
#![tactic(auto)]

mod fact;
mod gather;
mod mention;
mod setting;

pub use fact::add_fact_mentions;
pub use gather::{add_mentions, cell_spot, element_mention, index_value};
pub use mention::{Mention, Spot, counts};
pub use setting::Setting;
