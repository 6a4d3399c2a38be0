// How a question of the phase ends.

use sqlite_items::Items;
use svr_chain::Refutation;
use svr_encoded::Encoded;
use svr_phase::Proof;

/// What a question for sizes came to. The proof names the one encoding of an answer.
#[derive(Drop)]
pub(crate) enum Found {
    /// The sizes of an assignment that meets the hard items, and as many soft ones as can hold.
    Met(Items<u32>),
    /// No assignment meets the hard items.
    Refuted {
        proof: Proof,
        encoding: Encoded,
    },
    /// The budget is spent; the steps from place `first` on were made for this question.
    Spent {
        encoding: Encoded,
        log: Refutation,
        first: u64,
    },
}
