//! The tree of a script's tokens, or the exact place of its first fault (IEEE 1800-2017, Annex A).
#![tactic(auto)]

mod block;
mod fault;
mod laws;
mod parser;
mod reader;
mod script;
mod tops;

pub use fault::ParseFault;
pub use laws::{tokens_have_one_answer, tokens_have_one_tree};
pub use parser::parse;
