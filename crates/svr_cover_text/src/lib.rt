//! Cover groups (IEEE 1800-2017, clause 19): the groups that the first tokens of a text write, or the first token with which they begin none.
//!
//! `specs/Words.antt` says what a token says, `specs/Tree.antt` and `specs/Spelled.antt` what groups are and which words write them,
//! and `specs/Fronts.antt` where they end and where the first fault stands. `specs/Machine.antt` holds the same as the reader goes along.
#![tactic(auto)]

mod building;
mod fault;
mod place;
mod reader;
mod reading;
mod text;
mod word;

pub use fault::GroupsFault;
pub use reader::read;
pub use text::{BinsText, GroupText, GroupsText, NumText, PartText, RangeText};
