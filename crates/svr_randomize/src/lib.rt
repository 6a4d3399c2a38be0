//! One call of `randomize` (IEEE 1800-2017, 18.6): 1 with its values and the soft items that it keeps, 0 with its proofs, sizes beyond the cap, a question that spent its budget, or a phase that weighs too much.
//!
//! `randomize` makes the step of `svr_call` (`CallStep`), and `randomize_again` the same with what earlier calls in its frame have kept. What crates above cite beside them: the words of `specs/Answers.antt` (what an answer makes of a world) and of `specs/Kept.antt` (in which frames what is kept are the items of a call).
#![tactic(auto)]

mod answer;
mod asked;
mod clauses;
mod kept;
mod memory;
mod phases;
mod read;
mod step;
mod values;

pub use answer::Answer;
pub use kept::Kept;
pub use memory::NoMemory;
pub use phases::answer_in;
pub use step::{randomize, randomize_again};
