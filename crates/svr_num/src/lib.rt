//! Numbers of 1 to 64 bits, and the operators of SystemVerilog on them
//! (IEEE 1800-2017, clause 11.4).
#![tactic(auto)]

mod bits;

pub use bits::Bits;
