//! The tokens of a script, or its first lexical fault (IEEE 1800-2017, clause 5).
#![tactic(auto)]

mod fault;
mod front;
mod lexer;

pub use fault::LexFault;
pub use lexer::lex;
