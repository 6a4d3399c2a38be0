//! The words of the command line: what they ask for, as `clap` takes them, and the usage text for words that ask for nothing.
//!
//! `specs/Words.antt` says which words ask for what, `specs/Taken.antt` in which ranges their numbers are.
#![tactic(auto)]

mod app;
mod ask;
mod help;
mod limits;
mod request;
mod take;

pub use ask::command;
pub use help::USAGE;
pub use limits::{CLASS_LIMIT, LINE_LIMIT};
pub use request::{Lines, Load, Request, Run};
