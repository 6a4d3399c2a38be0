//! The frame of a call of `randomize` (IEEE 1800-2017, 18.5 and 18.6), and what it asks: the occurrences of its items, what they mention, which of them count in which phase, when an assignment answers them, and what they weigh.
#![tactic(auto)]

mod examples;
mod frame;
mod part;
mod property;
mod slot;
mod sought;

pub use examples::calls_are_as_worked_out;
pub use frame::Frame;
pub use part::Part;
pub use property::size_at;
pub use slot::Slot;
pub use sought::{
    Sought, finds, finds_in_members, finds_in_range, finds_size, holds_free_size, is_open,
    mentions_random,
};
