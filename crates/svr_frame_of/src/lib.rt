//! The frame of a call of `randomize`: what an object, its class and the call ask (IEEE 1800-2017, 18.4 to 18.11).
#![tactic(auto)]

mod again;
mod free;
mod held;
mod leaves;
mod make;
mod object;
mod operands;
mod parts;

pub use again::renew;
pub use make::make_frame;
