//! The text of what a call tells: its line, the proofs that its answer carries, and which of its items contradict each other.
//!
//! It is `line_of`, `certificates_of`, `logs_of`, `end_text` and `spent_log` of `svr_script`, byte by byte, whatever the frame and the answer. It goes to a sink piece by piece, so that no part of it stands in memory as a whole, and nothing is allocated.
#![tactic(auto)]

mod certificate;
mod conflict;
mod line;
mod names;
mod numbers;
mod proof;
mod values;

pub use certificate::{put_certificates, put_logs};
pub use conflict::{put_conflict, put_conflict_log};
pub use line::put_line;
pub use proof::{put_reason, put_unknowns};
