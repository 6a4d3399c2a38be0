//! A text of `randsequence` (IEEE 1800-2017, 18.16 and 18.17) with its names resolved, within its limits, or the first refusal in the order of the text.
//!
//! `specs/Refusals.antt` and `specs/Blocks.antt` say what is refused and where, and `specs/Making.antt` what is made.
#![tactic(auto)]

mod block;
mod entry;
mod fault;
mod numbers;
mod rules;
mod setting;
mod whole;

pub use entry::read_seq;
pub use fault::SeqFault;
pub use whole::make;
