//! What an item states, as a closed expression: numbers stand in place of the variables of the loops around it (IEEE 1800-2017, 12.7.3 and 18.5.8.1).
//!
//! Each promises what `Closed` and `Occurrences` of `svr_frame` define, and one answer beside it: that memory is wanting.
#![tactic(auto)]

mod close;
mod fact;
mod typing;

pub use close::{closed, closed_member, index_number};
pub use fact::{fact_expr, is_set};
