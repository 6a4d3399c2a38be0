//! Readers of tokens as programs: the steps of which the productions of a grammar are made, what they give on a list of tokens, and the cursor that takes them.
//!
//! What crates above cite: the words of `specs/Program.antt`, `specs/Steps.antt` and `specs/Lists.antt`, what a parser promises of the place of a fault (`specs/Fronts.antt`), and the lemma files:
//! - `proofs/Steps.antt`, `proofs/Turns.antt`: what the steps give, and loops that count their turns;
//! - `proofs/Local.antt`: a program sees no token behind the one at which it stops;
//! - `proofs/Growth.antt`, `proofs/Rooms.antt`: what more room for height changes;
//! - `proofs/Live.antt`, `proofs/LiveLoops.antt`, `proofs/Goals.antt`, `proofs/Led.antt`: where a reading fails, what was read so far can be completed;
//! - `proofs/Layers.antt`: what a construct is for those that call for it;
//! - `proofs/Lists.antt`, `proofs/LiveLists.antt`: lists;
//! - `proofs/Fronts.antt`, `proofs/Places.antt`: a list of tokens has one answer, and a parser with all these laws gives it.
#![tactic(auto)]

mod cursor;
mod fault;
mod fixed;
mod list;
mod spelling;

pub use cursor::Cursor;
pub use fault::ReadFault;
pub use fixed::{Fixed, is_fixed};
pub use list::{listing, listing_on, until, until_on};
pub use spelling::lexemes;
