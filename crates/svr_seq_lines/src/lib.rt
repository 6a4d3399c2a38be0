//! The lines that a text of `randsequence` prints (IEEE 1800-2017, 18.16 and 18.17), written to a sink one by one, or why and where the text is refused.
//!
//! `specs/Lines.antt` has the lines of a text that is accepted, `specs/Said.antt` what is said and written of which text, and why writing stops.
#![tactic(auto)]

mod end;
mod entry;
mod laws;
mod line;
mod refusal;
mod sequence;

pub use end::{End, Stop};
pub use entry::write_lines;
pub use laws::{accepted_texts_are_not_refused, lines_are_one};
