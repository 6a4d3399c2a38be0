//! How the program ends, and what is written with it: its statuses, the line of a refusal, and the last text of a run.
//!
//! `specs/Writing.antt` says what was written with each status, and how far a text was read; crates above cite it for what they say themselves. They also cite the lemma files `proofs/Told.antt` (what a source told), `proofs/Statuses.antt` (no status is another) and `proofs/Written.antt` (what holds of what is said holds of what was written).
#![tactic(auto)]

mod end;
mod line;
mod status;

pub use end::{finish, refuse};
pub use line::{join, refused_as, refused_at};
pub use status::Status;
