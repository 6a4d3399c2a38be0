//! Which properties can be random (IEEE 1800-2017, 18.4 and 18.11.1).
//!
//! A property that a call lists can be random in its own class and in each class that inherits it. `specs/Random.antt` says which are listed, and what the classes are then.
#![tactic(auto)]

mod random;

pub use random::{Home, with_random};
