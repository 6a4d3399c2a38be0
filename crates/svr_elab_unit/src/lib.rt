//! The variables and the statements of a script become typed ones, with their first refusal (IEEE 1800-2017, clauses 6.8, 8.3, 9.2.1 and 18.11).
//!
//! `specs/Listed.antt` says which properties calls list, `specs/Vars.antt` what the variables of a script are and which statements their values are, `specs/Run.antt` what the statements of the initial block are, with the limit on how many run.
#![tactic(auto)]

pub mod examples;
mod law;
mod listed;
mod top;
mod values;
mod vars;

pub use law::keeps_the_first;
pub use listed::listed_in_all;
pub use top::run;
pub use vars::{VarsPart, stmt_space, var_decls};
