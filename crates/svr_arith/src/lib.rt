//! Circuits that compute with vectors of literals, least bit first (IEEE 1800-2017, clauses
//! 11.4.3 to 11.4.5).
//!
//! Each call says what it gives by a definition of `svr_num`, and crates above cite nothing else:
//! in every valuation that meets the clauses, the literals read as that number. The builder is
//! only ever extended, after want of memory too.
#![tactic(auto)]

mod adder;
mod division;
mod memory;
mod order;
mod product;
mod quotient;

pub use adder::{add, neg, sub};
pub use memory::NoMemory;
pub use order::{equal, less};
pub use product::mul;
pub use quotient::{div, rem};
