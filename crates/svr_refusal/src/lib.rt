//! Why a script is refused, under which number, and at which line and column.
//!
//! `specs/Numbers.antt` has the numbers, `specs/Place.antt` the places.
#![tactic(auto)]

mod place;
mod refusal;

pub use place::{Place, place_of, token_start};
pub use refusal::Refusal;
