// What a call answers.

use sqlite_items::Items;
use svr_chain::Refutation;
use svr_encoded::Encoded;
use svr_frame::Part;
use svr_phase::{Proof, Renewed};

/// A question that a call asks: for the next value of a cyclic property, for sizes, for values that meet the hard items, or those and the soft item of a rank.
#[derive(Clone, Copy)]
pub enum Query {
    Randc(u32),
    Size,
    Hard,
    Soft(u32),
}

/// A soft item, by its rank, that could not be met, and the proof of it.
#[derive(Drop)]
pub struct Dropped {
    pub rank: u32,
    pub proof: Proof,
}

/// What a call of `randomize` answers. Each proof names an encoding by its place.
#[derive(Drop)]
pub enum Outcome {
    /// 1: the ranks of the soft items that are kept, those that are not, and the new cycles.
    One {
        kept: Items<u32>,
        dropped: Items<Dropped>,
        cycles: Items<Renewed>,
        encodings: Items<Encoded>,
    },
    /// 0: the phase that has no answer, the cyclic values that were chosen before, and for the last phase the sizes at which the hard items cannot be met.
    Zero {
        phase: Part,
        chosen: Items<(u32, u64)>,
        sizes: Items<u32>,
        proofs: Items<Proof>,
        encodings: Items<Encoded>,
    },
    /// A question spent its budget: its encoding, and the log over its clauses, whose steps for this question begin at place `first`.
    GaveUp {
        query: Query,
        encoding: Encoded,
        log: Refutation,
        first: u64,
    },
    /// A phase weighs more than 1,000,000.
    TooHeavy {
        weight: u128,
    },
    /// Only sizes beyond the cap can be; these are some.
    SizeCap {
        sizes: Items<u32>,
        proofs: Items<Proof>,
        encodings: Items<Encoded>,
    },
}
