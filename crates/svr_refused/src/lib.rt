//! What the text of a script comes to: its design, or the line with which it is refused.
//!
//! `specs/Texts.antt` says which texts have a design, and with which line which others are refused.
#![tactic(auto)]

mod fault;
mod text;

pub use text::{Reading, read};
