//! What a script that was read from a text gives elaboration (IEEE 1800-2017, 5.7.1 and Annex A): its literals fit their widths, its lists can be counted, its loops can be numbered, and each type and class has its place.
//!
//! The function has an empty body, and its contract is the law.
#![tactic(auto)]

mod law;

pub use law::what_is_read_fits;
