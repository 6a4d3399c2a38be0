// Which soft items are kept, and the proofs of those that are not.

ghost use Rattle.std.specs.Prelude.{◌≡◌, map, length, take, filter, nat_lt, IfOk};
ghost use Rattle.std.specs.Rc.{rc_slice_items};
ghost use Rattle.svr_frame.specs.Satisfaction.{kept_ranks};
ghost use Rattle.svr_soft.specs.Kept.{AreRanks, lit_at, assumed_at};
ghost use Rattle.svr_question.specs.Passed.{dropped_at};

use crate::memory::NoMemory;
use sqlite_items::Items;
use std::alloc::Global;
use std::rc::RcSlice;
use svr_call::Dropped;
use svr_chain::{Lit, Refutation};
use svr_phase::{Assumed, Proof, ProofReason};

/// For each of so many ranks, from 1 on, whether it is a kept one.
pub(crate) fn fates_of(alloc: Global, kept: &[u32], count: usize) -> Result<Vec<bool>, NoMemory>
    requires { AreRanks count kept.now }
    ensures long { IfOk result (λ fates. length fates.items ≡ count) }
    ensures ranks { IfOk result (λ fates. kept_ranks 1 fates.items ≡ kept.now) }
{
    let mut fates = vec![in alloc; false; count]?;
    for rank in kept {
        let at = (*rank as usize).saturating_sub(1);
        fates[at] = true;
    }
    Ok(fates)
}

/// The soft literal of a rank; one of no variable where there is none.
fn lit_of(soft: &[Lit], rank: u32) -> Lit
    ensures { result ≡ lit_at soft.now rank }
{
    let at = (rank as usize).saturating_sub(1);
    if at < soft.len() {
        soft[at]
    } else {
        Lit { var: 0, neg: false }
    }
}

/// The literals of the kept ranks, in their order.
fn literals_of(alloc: Global, soft: &[Lit], kept: &[u32]) -> Result<Vec<Lit>, NoMemory>
    ensures { IfOk result (λ ls. ls.items ≡ map (lit_at soft.now) kept.now) }
{
    let mut literals = Vec::new(alloc);
    for rank in kept {
        literals.push(lit_of(soft, *rank))?;
    }
    Ok(literals)
}

/// How many of the kept ranks are above a rank. They are the first ones, since ranks stand in their order.
fn count_above(count: usize, kept: &[u32], rank: u32) -> usize
    requires { AreRanks count kept.now }
    ensures { take result kept.now ≡ filter (λ k. nat_lt k rank) kept.now }
{
    kept.partition_point(|other| *other < rank)
}

/// What the proofs of dropped soft items share: the base, and the literals of all kept ranks.
#[derive(Clone, Copy)]
struct Common<'a> {
    base: &'a RcSlice<Lit>,
    literals: &'a RcSlice<Lit>,
}

/// What is assumed for a rank that was dropped: the base, the kept literals above it, and its own.
fn assumed_for(
    alloc: Global,
    common: Common<'_>,
    soft: &[Lit],
    kept: &[u32],
    rank: u32,
) -> Result<Assumed, NoMemory>
    requires ranks { AreRanks (length soft.now) kept.now }
    requires literals { rc_slice_items common.literals.now ≡ map (lit_at soft.now) kept.now }
    ensures { IfOk result (λ a. a ≡ assumed_at (rc_slice_items common.entry.base.now) soft.now kept.now rank) }
{
    let own = Vec::from_array(alloc, [lit_of(soft, rank)])?;
    let above = count_above(soft.len(), kept, rank);
    let assume = Assumed::behind(common.base, common.literals, above, own)?;
    Ok(assume)
}

/// The soft item of a rank that was dropped, with the proof that it cannot hold together with the base and the kept ones above it.
fn dropped_one(
    alloc: Global,
    place: u32,
    common: Common<'_>,
    soft: &[Lit],
    kept: &[u32],
    dropped: (u32, Refutation),
) -> Result<Dropped, NoMemory>
    requires ranks { AreRanks (length soft.now) kept.now }
    requires literals { rc_slice_items common.literals.now ≡ map (lit_at soft.now) kept.now }
    ensures { IfOk result (λ d. d ≡ dropped_at place (rc_slice_items common.entry.base.now) soft.now kept.now dropped) }
{
    let (rank, refutation) = dropped;
    let assume = assumed_for(alloc, common, soft, kept, rank)?;
    let proof = Proof {
        encoding: place,
        assume,
        refutation,
        reason: ProofReason::Drop { rank },
    };
    Ok(Dropped { rank, proof })
}

/// All that were dropped, in their order, by what their proofs share.
fn dropped_by(
    alloc: Global,
    place: u32,
    common: Common<'_>,
    soft: &[Lit],
    kept: &[u32],
    dropped: Vec<(u32, Refutation)>,
) -> Result<Items<Dropped>, NoMemory>
    requires ranks { AreRanks (length soft.now) kept.now }
    requires literals { rc_slice_items common.literals.now ≡ map (lit_at soft.now) kept.now }
    ensures { IfOk result (λ ds. ds ≡ map (dropped_at place (rc_slice_items common.entry.base.now) soft.now kept.now) dropped.items) }
{
    let mut turned = dropped;
    turned.reverse();
    let mut left = Items::from_vec(turned);
    let mut proved = Items::new(alloc);
    while let Some(one) = left.pop() {
        proved.push(dropped_one(alloc, place, common, soft, kept, one)?)?;
    }
    Ok(proved)
}

/// All that were dropped, in their order.
pub(crate) fn dropped_all(
    alloc: Global,
    place: u32,
    base: &[Lit],
    soft: &[Lit],
    kept: &[u32],
    dropped: Vec<(u32, Refutation)>,
) -> Result<Items<Dropped>, NoMemory>
    requires { AreRanks (length soft.now) kept.now }
    ensures { IfOk result (λ ds. ds ≡ map (dropped_at place base.now soft.now kept.now) dropped.items) }
{
    let kept_literals = literals_of(alloc, soft, kept)?;
    let literals = RcSlice::from_vec(kept_literals)?;
    let base = RcSlice::from_slice(alloc, base)?;
    let common = Common {
        base: &base,
        literals: &literals,
    };
    dropped_by(alloc, place, common, soft, kept, dropped)
}
