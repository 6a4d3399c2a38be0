//! The clauses of a search in an arena, and unit propagation over their watch lists (M. W. Moskewicz and others, 2001).
//!
//! What crates above cite: the words of `specs/Store.antt` (where each clause is) and
//! `specs/Watch.antt` (what propagation keeps), and the lemma files `proofs/Levels.antt`,
//! `proofs/Learned.antt`, `proofs/Fresh.antt` (what a search keeps of its watches),
//! `proofs/Visits.antt` (the bound on visits) and `proofs/OfArena.antt` (clauses by name).
#![tactic(auto)]

mod apart;
mod codes;
mod find;
mod joining;
mod steps;
mod store;
mod watch;

pub use apart::look_all;
pub use codes::{lit_of, watched_codes};
pub use joining::{forced_apart, forced_watched, head_with, put_forced, rank};
pub use steps::Steps;
pub use store::{Held, Store};
pub use watch::follow_all;
