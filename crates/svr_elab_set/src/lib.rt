//! Sets of constraint items become typed ones, with their first refusal, in one walk (IEEE 1800-2017, 18.5).
//!
//! Contracts see a set as `specs/Items.antt` of `svr_elab_item` defines it, with the first refusal in the place of all of them; `keeps_the_first` says that it is the first.
#![tactic(auto)]

mod dist;
mod law;
mod walk;

pub use law::keeps_the_first;
pub use walk::{item, items};
