//! Statements and lists of statements become typed ones, with their first refusal, in one walk (IEEE 1800-2017, clauses 8.7, 10, 12 and 18).
//!
//! Contracts see that as `specs/Stmts.antt` of `svr_elab_stmt` defines it, with the first refusal in the place of all of them; `keeps_the_first` says that it is the first.
#![tactic(auto)]

mod call;
mod examples;
mod law;
mod right;
mod walk;

pub use examples::{
    calls_are_as_worked_out, counts_are_as_worked_out, lefts_are_as_worked_out,
    lists_are_as_worked_out, modes_are_as_worked_out, news_are_as_worked_out,
    patterns_are_as_worked_out, rights_are_as_worked_out, statements_become_as_worked_out,
};
pub use law::keeps_the_first;
pub use walk::{and_next, stmt, stmts};
