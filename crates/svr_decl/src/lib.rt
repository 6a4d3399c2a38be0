//! Types, classes and variables, read from tokens (IEEE 1800-2017, A.1.2, A.1.9, A.1.10 and A.2).
#![tactic(auto)]

mod classes;
mod held;
mod properties;
mod reader;
mod typedefs;
mod types;
mod variables;

pub use classes::class;
pub use typedefs::typedef;
pub use types::{starts_type, starts_var};
pub use variables::{var, var_on};
