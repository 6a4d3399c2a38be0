//! The answer to the text of a script and to a load: what its calls tell, or its refusal, with the status of its end.
//!
//! `specs/Ends.antt` says how a run of a text ends and what it has told so far, `specs/Answers.antt` what is answered with each status.
#![tactic(auto)]

mod answer;
mod count;
mod line;
mod made;
mod script;

pub use count::status_of;
pub use made::load;
pub use script::run_source;
