//! Texts of `randsequence` (IEEE 1800-2017, 18.17): the productions that the tokens of a text write, or the first token with which they begin no such text.
//!
//! `specs/Words.antt` says what a token says, `specs/Tree.antt` and `specs/Spelled.antt` what such a text is and which words write it,
//! and `specs/Fronts.antt` where the first fault stands. `specs/Machine.antt` holds the same as the reader goes along.
#![tactic(auto)]

mod building;
mod fault;
mod place;
mod reader;
mod reading;
mod text;
mod word;

pub use fault::SeqTextFault;
pub use reader::read;
pub use text::{ActText, PartText, ProdText, RuleText, SeqText};
