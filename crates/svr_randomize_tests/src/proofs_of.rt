// The proofs that an answer carries.

use std::alloc::Global;
use svr_call::{Dropped, Outcome};
use svr_chain::{Verdict, check};
use svr_encoded::Encoded;
use svr_phase::{Proof, Renewed};

/// How many proofs there are, and how many of them the checker accepts.
#[derive(Clone, Copy)]
pub(crate) struct Judged {
    pub(crate) proofs: u64,
    pub(crate) accepted: u64,
}

/// No proof yet.
const NONE: Judged = Judged {
    proofs: 0,
    accepted: 0,
};

/// With one proof more.
fn with(judged: Judged, accepted: bool) -> Judged {
    Judged {
        proofs: judged.proofs.wrapping_add(1),
        accepted: judged.accepted.wrapping_add(u64::from(accepted)),
    }
}

/// Whether the checker accepts the refutation of a proof over these clauses.
fn is_refuted(alloc: Global, over: &Encoded, proof: &Proof) -> bool {
    let assume = match proof.assume.written(alloc) {
        Ok(assume) => assume,
        Err(_) => return false,
    };
    match check(alloc, &over.cnf, assume.as_slice(), &proof.refutation) {
        Ok(Verdict::Accepted) => true,
        Ok(Verdict::Rejected { .. }) => false,
        Err(_) => false,
    }
}

/// Whether the checker accepts a proof over the clauses that it names.
fn is_accepted(alloc: Global, encodings: &[Encoded], proof: &Proof) -> bool {
    if proof.refutation.goal.is_none() {
        return false;
    }
    match encodings.get(proof.encoding as usize) {
        Some(over) => is_refuted(alloc, over, proof),
        None => false,
    }
}

fn of_proofs(alloc: Global, before: Judged, encodings: &[Encoded], proofs: &[Proof]) -> Judged {
    let mut judged = before;
    for proof in proofs {
        judged = with(judged, is_accepted(alloc, encodings, proof));
    }
    judged
}

fn of_drops(alloc: Global, before: Judged, encodings: &[Encoded], dropped: &[Dropped]) -> Judged {
    let mut judged = before;
    for one in dropped {
        judged = with(judged, is_accepted(alloc, encodings, &one.proof));
    }
    judged
}

fn of_cycles(alloc: Global, encodings: &[Encoded], cycles: &[Renewed]) -> Judged {
    let mut all = NONE;
    for cycle in cycles {
        all = of_proofs(alloc, all, encodings, cycle.proofs.as_slice());
    }
    all
}

/// The proofs of an answer, judged.
pub(crate) fn proofs_of(alloc: Global, outcome: &Outcome) -> Judged {
    match outcome {
        Outcome::One {
            dropped,
            cycles,
            encodings,
            ..
        } => {
            let over = encodings.as_slice();
            let of_cycles = of_cycles(alloc, over, cycles.as_slice());
            of_drops(alloc, of_cycles, over, dropped.as_slice())
        }
        Outcome::Zero {
            proofs,
            encodings,
            ..
        } => of_proofs(alloc, NONE, encodings.as_slice(), proofs.as_slice()),
        Outcome::SizeCap {
            proofs,
            encodings,
            ..
        } => of_proofs(alloc, NONE, encodings.as_slice(), proofs.as_slice()),
        Outcome::GaveUp { .. } => NONE,
        Outcome::TooHeavy { .. } => NONE,
    }
}
