//! The phase of sizes of a call of `randomize` (IEEE 1800-2017, 18.4 and 18.5.8): sizes for the random dynamic arrays and queues whose sizes items ask for. The preferred ones are taken where they fit, else those of a solution with as many soft items as can hold; where none are within the cap, some beyond it are looked for.
//!
//! `choose_sizes` is the phase; `specs/Ends.antt` says how it ends.
#![tactic(auto)]

mod ask;
mod bits;
mod bounds;
mod choose;
mod cut;
mod found;
mod items;
mod memory;
mod passed;
mod read;
mod scope;

pub use choose::{SizesEnd, choose_sizes};
pub use memory::NoMemory;
