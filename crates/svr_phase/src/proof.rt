// Proofs that an answer carries.

use crate::assumed::Assumed;
use sqlite_items::Items;
use svr_chain::Refutation;

/// What a proof refutes: the hard items; the hard items of the sizes; a value of a cyclic property, of its whole domain or of those that were unused before a new cycle; the soft item of a rank.
#[derive(Clone, Copy)]
pub enum ProofReason {
    Hard,
    Size,
    Randc { prop: u32, value: u64 },
    Cycle { prop: u32, value: u64 },
    Drop { rank: u32 },
}

/// A refutation of the assumed literals together with the clauses of an encoding, which is named by its place in the list that the answer carries.
#[derive(Drop)]
pub struct Proof {
    pub encoding: u32,
    pub assume: Assumed,
    pub refutation: Refutation,
    pub reason: ProofReason,
}

/// A cyclic property with which a new cycle began, and a proof for each of its unused values, in the order in which they were tried.
#[derive(Drop)]
pub struct Renewed {
    pub prop: u32,
    pub proofs: Items<Proof>,
}
