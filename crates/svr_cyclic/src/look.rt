// The first of some values that fits.

ghost use Rattle.std.specs.Prelude.{◌≡◌, ◌<◌, ◌^◌, ℕ, [], ◌∷◌, ◌++◌, IfOk, IfSome, OnOk};
ghost use Rattle.std.specs.List.{All};
ghost use Rattle.std.specs.Rc.{rc_slice_items};
ghost use Rattle.svr_query.specs.declared.solver.Answer.TheVariants as answer;
ghost use Rattle.svr_phase.specs.declared.proof.ProofReason.{ProofReason};
ghost use Rattle.svr_phase.specs.Proof.{fixed_lits};
ghost use Rattle.svr_frame.specs.Frame.{frame_term, width_of};
ghost use Rattle.svr_cyclic.specs.Questions.{AreInFront, CanAsk, IsSought, IsTried, front_of, over, tried_of};
ghost use Rattle.svr_cyclic.specs.Denials.{AreDenied};
ghost use Rattle.svr_cyclic.specs.Values.{IsFit, IsLooked, reason_of};

use crate::ask::{Asker, Asking, Sought, Tried, ask_with, assumed, chosen_once};
use crate::memory::NoMemory;
use crate::row::spelled;
use crate::single::{Known, ask_each, copied, denied_among, is_denied};
use sqlite_items::Items;
use std::alloc::Global;
use std::rc::RcSlice;
use svr_chain::{Lit, Refutation};
use svr_phase::{Proof, ProofReason};
use svr_query::Answer;

/// Which values are tried: those that are unused, or the whole domain for a new cycle.
#[derive(Clone, Copy)]
pub(crate) enum Among {
    Unused,
    Domain,
}

/// What the search for a value came to.
#[derive(Drop)]
pub(crate) enum Looked {
    /// The first that fits.
    Found(u64),
    /// None fits, with a proof for each.
    NoneFits(Items<Proof>),
    /// The question for one of them spent the budget.
    Spent { log: Refutation, first: u64 },
}

/// Whether a value fits; no proof is kept where it does not.
#[derive(Drop)]
pub(crate) enum Fit {
    /// Some assignment has it.
    Can,
    /// None has it.
    Cannot,
    /// The budget is spent; the steps from place `first` on were made for this question.
    Spent { log: Refutation, first: u64 },
}

/// What the proof that a value does not fit is for.
fn reason(among: Among, prop: u32, value: u64) -> ProofReason
    ensures { result ≡ reason_of among prop value }
{
    match among {
        Among::Unused => ProofReason::Cycle { prop, value },
        Among::Domain => ProofReason::Randc { prop, value },
    }
}

/// Refuses a value by a refutation of its literals behind those in front. `chosen` are the literals of the chosen values.
fn refused(
    alloc: Global,
    asking: &Asking<'_>,
    sought: &Sought<'_>,
    chosen: &RcSlice<Lit>,
    own: &[Lit],
    refutation: Refutation,
    reason: ProofReason,
) -> Result<Tried, NoMemory>
    requires roots { rc_slice_items asking.now.roots.now ≡ asking.now.layout.now.roots.items }
    requires chosen { rc_slice_items chosen.now ≡ fixed_lits asking.now.layout.now sought.now.chosen.now }
    ensures { IfOk result (λ t. t ≡ tried_of (answer.Refuted refutation) (fixed_lits asking.now.layout.now sought.now.chosen.now ++ own.now ++ asking.now.layout.now.roots.items) reason) }
{
    let assume = assumed(alloc, asking, sought, chosen, own)?;
    Ok(Tried::Refused(Proof {
        encoding: 0,
        assume,
        refutation,
        reason,
    }))
}

/// The same by a copy of the refutation.
fn refused_by_copy(
    alloc: Global,
    asking: &Asking<'_>,
    sought: &Sought<'_>,
    chosen: &RcSlice<Lit>,
    own: &[Lit],
    refutation: &Refutation,
    reason: ProofReason,
) -> Result<Tried, NoMemory>
    requires roots { rc_slice_items asking.now.roots.now ≡ asking.now.layout.now.roots.items }
    requires chosen { rc_slice_items chosen.now ≡ fixed_lits asking.now.layout.now sought.now.chosen.now }
    ensures { IfOk result (λ t. t ≡ tried_of (answer.Refuted refutation.now) (fixed_lits asking.now.layout.now sought.now.chosen.now ++ own.now ++ asking.now.layout.now.roots.items) reason) }
{
    let copy = copied(alloc, refutation)?;
    refused(alloc, asking, sought, chosen, own, copy, reason)
}

/// Tries a value. No question is asked where one of its literals is denied, and where the value is refused its literals are asked for one by one.
fn try_with(
    alloc: Global,
    asking: &Asking<'_>,
    asker: &mut Asker,
    sought: &Sought<'_>,
    chosen: &RcSlice<Lit>,
    known: &mut Known,
    value: u64,
    reason: ProofReason,
) -> Result<Tried, NoMemory>
    requires can { CanAsk asking.now asker.old.solver }
    requires sought { IsSought asking.now sought.now }
    requires chosen { rc_slice_items chosen.now ≡ fixed_lits asking.now.layout.now sought.now.chosen.now }
    requires front { AreInFront asking.now sought.now.chosen.now asker.old.front.items }
    requires below { value < 2 ^ width_of (frame_term asking.now.frame.now) sought.now.prop }
    requires denied { AreDenied asking.now sought.now asker.old.solver.clauses known.old.denied.items }
    ensures can { CanAsk asking.now asker.new.solver }
    ensures same { asker.new.solver.clauses ≡ asker.old.solver.clauses }
    ensures front { OnOk result (AreInFront asking.now sought.now.chosen.now asker.new.front.items) }
    ensures denied { AreDenied asking.now sought.now asker.old.solver.clauses known.new.denied.items }
    ensures tried { IfOk result (IsTried (over asking.now asker.old.solver.clauses) (sought.now.chosen.now ++ (sought.now.prop, value) ∷ []) reason) }
{
    let own = spelled(alloc, sought.row, value)?;
    let lits = own.as_slice();
    if let Some(refutation) = denied_among(known.denied.as_slice(), lits) {
        return refused_by_copy(alloc, asking, sought, chosen, lits, refutation, reason);
    }
    let answer = ask_with(asking, asker, lits, asking.budget)?;
    match answer {
        Answer::Satisfied(values) => {
            asker.met = values;
            Ok(Tried::Fits)
        }
        Answer::Spent { log, first } => Ok(Tried::Spent { log, first }),
        Answer::Refuted(refutation) => {
            ask_each(asking, asker, sought, lits, known)?;
            refused(alloc, asking, sought, chosen, lits, refutation, reason)
        }
    }
}

/// Whether a value fits. No question is asked where one of its literals is denied, and where the value is refused its literals are asked for one by one.
fn fit_of(
    alloc: Global,
    asking: &Asking<'_>,
    asker: &mut Asker,
    sought: &Sought<'_>,
    known: &mut Known,
    value: u64,
) -> Result<Fit, NoMemory>
    requires can { CanAsk asking.now asker.old.solver }
    requires sought { IsSought asking.now sought.now }
    requires front { AreInFront asking.now sought.now.chosen.now asker.old.front.items }
    requires below { value < 2 ^ width_of (frame_term asking.now.frame.now) sought.now.prop }
    requires denied { AreDenied asking.now sought.now asker.old.solver.clauses known.old.denied.items }
    ensures can { CanAsk asking.now asker.new.solver }
    ensures same { asker.new.solver.clauses ≡ asker.old.solver.clauses }
    ensures front { OnOk result (AreInFront asking.now sought.now.chosen.now asker.new.front.items) }
    ensures denied { AreDenied asking.now sought.now asker.old.solver.clauses known.new.denied.items }
    ensures fits { IfOk result (IsFit (over asking.now asker.old.solver.clauses) (sought.now.chosen.now ++ (sought.now.prop, value) ∷ [])) }
{
    let own = spelled(alloc, sought.row, value)?;
    let lits = own.as_slice();
    if is_denied(known.denied.as_slice(), lits) {
        return Ok(Fit::Cannot);
    }
    let answer = ask_with(asking, asker, lits, asking.budget)?;
    match answer {
        Answer::Satisfied(values) => {
            asker.met = values;
            Ok(Fit::Can)
        }
        Answer::Spent { log, first } => Ok(Fit::Spent { log, first }),
        Answer::Refuted(_) => {
            ask_each(asking, asker, sought, lits, known)?;
            Ok(Fit::Cannot)
        }
    }
}

/// The first of the values that is not refused: the one that fits, or that whose question spends the budget.
fn first_found(
    alloc: Global,
    asking: &Asking<'_>,
    asker: &mut Asker,
    sought: &Sought<'_>,
    known: &mut Known,
    values: &[u64],
) -> Result<Option<Looked>, NoMemory>
    requires can { CanAsk asking.now asker.old.solver }
    requires sought { IsSought asking.now sought.now }
    requires front { AreInFront asking.now sought.now.chosen.now asker.old.front.items }
    requires below { All (λ v. v < 2 ^ width_of (frame_term asking.now.frame.now) sought.now.prop) values.now }
    requires denied { AreDenied asking.now sought.now asker.old.solver.clauses known.old.denied.items }
    ensures can { CanAsk asking.now asker.new.solver }
    ensures same { asker.new.solver.clauses ≡ asker.old.solver.clauses }
    ensures front { OnOk result (AreInFront asking.now sought.now.chosen.now asker.new.front.items) }
    ensures denied { AreDenied asking.now sought.now asker.old.solver.clauses known.new.denied.items }
    ensures found { IfOk result (λ o. IfSome o (λ end. (cause : ℕ → ProofReason) → IsLooked (over asking.now asker.old.solver.clauses) sought.now.chosen.now sought.now.prop cause values.now end)) }
{
    for value in values {
        let found = fit_of(alloc, asking, asker, sought, known, *value)?;
        match found {
            Fit::Can => return Ok(Some(Looked::Found(*value))),
            Fit::Cannot => {}
            Fit::Spent { log, first } => return Ok(Some(Looked::Spent { log, first })),
        }
    }
    Ok(None)
}

/// Tries the values in their order, with a proof for each that is refused.
fn none_fitting(
    alloc: Global,
    asking: &Asking<'_>,
    asker: &mut Asker,
    sought: &Sought<'_>,
    known: &mut Known,
    among: Among,
    values: &[u64],
) -> Result<Looked, NoMemory>
    requires can { CanAsk asking.now asker.old.solver }
    requires sought { IsSought asking.now sought.now }
    requires front { AreInFront asking.now sought.now.chosen.now asker.old.front.items }
    requires below { All (λ v. v < 2 ^ width_of (frame_term asking.now.frame.now) sought.now.prop) values.now }
    requires denied { AreDenied asking.now sought.now asker.old.solver.clauses known.old.denied.items }
    ensures can { CanAsk asking.now asker.new.solver }
    ensures same { asker.new.solver.clauses ≡ asker.old.solver.clauses }
    ensures front { OnOk result (AreInFront asking.now sought.now.chosen.now asker.new.front.items) }
    ensures looked { IfOk result (IsLooked (over asking.now asker.old.solver.clauses) sought.now.chosen.now sought.now.prop (reason_of among sought.now.prop) values.now) }
{
    let chosen = chosen_once(alloc, asking.layout, sought, asker.front.as_slice())?;
    let mut proofs = Items::new(alloc);
    for value in values {
        let why = reason(among, sought.prop, *value);
        let tried = try_with(alloc, asking, asker, sought, &chosen, known, *value, why)?;
        match tried {
            Tried::Fits => return Ok(Looked::Found(*value)),
            Tried::Refused(proof) => proofs.push(proof)?,
            Tried::Spent { log, first } => return Ok(Looked::Spent { log, first }),
        }
    }
    Ok(Looked::NoneFits(proofs))
}

/// The first of the values that fits; proofs are made only where none does.
pub(crate) fn first_fitting(
    alloc: Global,
    asking: &Asking<'_>,
    asker: &mut Asker,
    sought: &Sought<'_>,
    among: Among,
    values: &[u64],
) -> Result<Looked, NoMemory>
    requires can { CanAsk asking.now asker.old.solver }
    requires sought { IsSought asking.now sought.now }
    requires front { AreInFront asking.now sought.now.chosen.now asker.old.front.items }
    requires below { All (λ v. v < 2 ^ width_of (frame_term asking.now.frame.now) sought.now.prop) values.now }
    ensures can { CanAsk asking.now asker.new.solver }
    ensures same { asker.new.solver.clauses ≡ asker.old.solver.clauses }
    ensures front { OnOk result (AreInFront asking.now sought.now.chosen.now asker.new.front.items) }
    ensures looked { IfOk result (IsLooked (over asking.now asker.old.solver.clauses) sought.now.chosen.now sought.now.prop (reason_of among sought.now.prop) values.now) }
{
    let mut known = Known::new(alloc);
    let found = first_found(alloc, asking, asker, sought, &mut known, values)?;
    if let Some(looked) = found {
        return Ok(looked);
    }
    none_fitting(alloc, asking, asker, sought, &mut known, among, values)
}
