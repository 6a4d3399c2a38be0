//! What is said of a text with clauses in DIMACS form and a hinted derivation from them (LRAT): the verdict on it and its line, or why and where the text is no such file.
//!
//! `specs/Checked.antt` says what is told of which text, `specs/Lines.antt` in which words.
#![tactic(auto)]

mod check;
mod laws;
mod line;

pub use check::{Checked, check_text};
pub use laws::a_file_is_judged;
pub use line::verdict_line;
