// The steps of a log that its goal needs.

ghost use Rattle.std.specs.Prelude.{◌≡◌, ◌+◌, ◌++◌, ◌∷◌, ◌<◌, ◌≤◌, [], List, None, Some, IfNone, IfOk, IfSome, length, slice_index_or, take};
ghost use Rattle.svr_chain.specs.declared.clause.Lit.{Lit};
ghost use Rattle.svr_chain.specs.declared.log.Verdict.TheVariants.{Accepted};
ghost use Rattle.svr_chain.specs.Log.{verdict_of};
ghost use Rattle.svr_chain.specs.Views.{StepView};
ghost use Rattle.svr_query.specs.Answer.{IsRefutation};
ghost use Rattle.svr_query.specs.Needed.{AreLinksIn, IsKept, IsNumberOf, IsStepIn};

use crate::memory::NoMemory;
use std::alloc::Global;
use std::collections::BTreeSet;
use svr_chain::{Link, Refutation, Step};

/// The place of the step that derived the clause of a number. The clauses of the formula have the first numbers.
fn place_of(clauses: u64, number: u64) -> Option<usize>
    ensures some { IfSome result (λ p. number ≡ clauses + p + 1) }
    ensures none { IfNone result (number ≤ clauses) }
{
    if number <= clauses {
        return None;
    }
    Some((number - clauses - 1) as usize)
}

/// Wants the step that derived a clause, unless it is one of the formula.
fn want(wanted: &mut BTreeSet<usize>, clauses: u64, number: u64) -> Result<(), NoMemory> {
    if let Some(place) = place_of(clauses, number) {
        wanted.insert(place)?;
    }
    Ok(())
}

/// Wants the steps whose clauses a step uses.
fn want_used(wanted: &mut BTreeSet<usize>, clauses: u64, step: &Step) -> Result<(), NoMemory> {
    want(wanted, clauses, step.start)?;
    for link in &step.links {
        want(wanted, clauses, link.clause)?;
    }
    Ok(())
}

/// The places of the wanted steps and of all that they need, the last first. A step uses clauses of earlier ones alone, so that each place comes once.
fn gathered(
    alloc: Global,
    clauses: u64,
    steps: &[Step],
    wanted: &mut BTreeSet<usize>,
) -> Result<Vec<usize>, NoMemory> {
    let mut places = Vec::new(alloc);
    for _ in 0..steps.len() {
        let Some(place) = wanted.pop_last() else {
            break;
        };
        if let Some(step) = steps.get(place) {
            places.push(place)?;
            want_used(wanted, clauses, step)?;
        }
    }
    Ok(places)
}

/// The places of the steps that one needs which stands behind them, the last first.
fn needed_by(
    alloc: Global,
    clauses: u64,
    steps: &[Step],
    last: &Step,
) -> Result<Vec<usize>, NoMemory> {
    let mut wanted = BTreeSet::new(alloc);
    want_used(&mut wanted, clauses, last)?;
    gathered(alloc, clauses, steps, &mut wanted)
}

/// Where a place stands among rising ones, if it does.
fn index_of(places: &[usize], place: usize) -> Option<usize>
    ensures { IfSome result (λ i. (i < length places.now) × (slice_index_or places.now i 0 ≡ place)) }
{
    match places.binary_search(&place) {
        Ok(index) => Some(index),
        Err(_) => None,
    }
}

/// The number behind those of so many clauses and so many steps, if it fits.
fn number_behind(clauses: u64, steps: usize) -> Option<u64>
    ensures { IfSome result (λ n. n ≡ clauses + steps + 1) }
{
    let last = clauses.saturating_add(steps as u64);
    if last < u64::MAX {
        Some(last + 1)
    } else {
        None
    }
}

/// The number that a clause has among what was kept, the steps at these places. The clauses of the formula keep theirs.
fn number_in(clauses: u64, places: &[usize], number: u64) -> Option<u64>
    ensures { IfSome result (IsNumberOf clauses places.now number) }
{
    let Some(place) = place_of(clauses, number) else {
        return Some(number);
    };
    match index_of(places, place) {
        Some(index) => number_behind(clauses, index),
        None => None,
    }
}

/// The links by these numbers, where each clause has one.
fn links_in(
    alloc: Global,
    clauses: u64,
    places: &[usize],
    links: &[Link],
) -> Result<Option<Vec<Link>>, NoMemory>
    ensures { IfOk result (λ o. IfSome o (λ found. AreLinksIn clauses places.now links.now found.items)) }
{
    let mut found = Vec::new(alloc);
    for link in links {
        let Some(clause) = number_in(clauses, places, link.clause) else {
            return Ok(None);
        };
        let pivot = link.pivot;
        found.push(Link { pivot, clause })?;
    }
    Ok(Some(found))
}

/// The step by these numbers, where each clause that it uses has one.
fn step_in(
    alloc: Global,
    clauses: u64,
    places: &[usize],
    step: &Step,
) -> Result<Option<Step>, NoMemory>
    ensures { IfOk result (λ o. IfSome o (IsStepIn clauses places.now step.now)) }
{
    let Some(start) = number_in(clauses, places, step.start) else {
        return Ok(None);
    };
    match links_in(alloc, clauses, places, step.links.as_slice())? {
        Some(links) => Ok(Some(Step { start, links })),
        None => Ok(None),
    }
}

/// One step more of the log, behind those before its place. It is kept, unless a clause that it uses was left out.
fn keep(
    alloc: Global,
    clauses: u64,
    kept: &mut Vec<Step>,
    places: &mut Vec<usize>,
    step: &Step,
    place: usize,
) -> Result<(), NoMemory>
    ensures { IfOk result (λ _. (cnf : List (List Lit)) (ss : List StepView) → length cnf ≡ clauses → length ss ≡ place
        → IsKept cnf ss kept.old.items places.old.items → IsKept cnf (ss ++ step.now ∷ []) kept.new.items places.new.items) }
{
    match step_in(alloc, clauses, places.as_slice(), step)? {
        Some(copy) => {
            kept.push(copy)?;
            places.push(place)?;
            Ok(())
        }
        None => Ok(()),
    }
}

/// Keeps the step at a place, where it is behind the first `passed` ones. Tells how many were passed then.
fn keep_at(
    alloc: Global,
    clauses: u64,
    steps: &[Step],
    kept: &mut Vec<Step>,
    places: &mut Vec<usize>,
    passed: usize,
    place: usize,
) -> Result<usize, NoMemory>
    ensures { IfOk result (λ n. (cnf : List (List Lit)) → length cnf ≡ clauses
        → IsKept cnf (take passed steps.now) kept.old.items places.old.items → IsKept cnf (take n steps.now) kept.new.items places.new.items) }
{
    if place < passed || place >= steps.len() {
        return Ok(passed);
    }
    keep(alloc, clauses, kept, places, &steps[place], place)?;
    Ok(place + 1)
}

/// Keeps the steps at these places, of which the last stands first, and leaves the others out.
fn keep_needed(
    alloc: Global,
    clauses: u64,
    steps: &[Step],
    kept: &mut Vec<Step>,
    places: &mut Vec<usize>,
    needed: &[usize],
) -> Result<(), NoMemory>
    requires kept { kept.old.items ≡ [] }
    requires places { places.old.items ≡ [] }
    ensures { IfOk result (λ _. (cnf : List (List Lit)) → length cnf ≡ clauses → IsKept cnf steps.now kept.new.items places.new.items) }
{
    let mut passed = 0;
    for place in needed.iter().rev() {
        passed = keep_at(alloc, clauses, steps, kept, places, passed, *place)?;
    }
    Ok(())
}

/// A copy of the steps.
pub fn copy_steps(alloc: Global, steps: &[Step]) -> Result<Vec<Step>, NoMemory>
    ensures { IfOk result (λ v. v.items ≡ steps.now) }
{
    let mut copies = Vec::new(alloc);
    for step in steps {
        let links = Vec::from_slice(alloc, step.links.as_slice())?;
        let start = step.start;
        copies.push(Step { start, links })?;
    }
    Ok(copies)
}

/// The refutation whose goal is a clause of the log, or of the formula, which has so many. What is gathered need not be all that it needs: where the goal is left out, all steps stay.
pub fn refutation_by(
    alloc: Global,
    clauses: u64,
    steps: &[Step],
    goal: u64,
) -> Result<Refutation, NoMemory>
    ensures { IfOk result (λ r. (cnf : List (List Lit)) (assume : List Lit) → length cnf ≡ clauses
        → verdict_of cnf assume steps.now (Some goal) ≡ Accepted → IsRefutation cnf assume r) }
{
    let last = Step {
        start: goal,
        links: Vec::new(alloc),
    };
    let needed = needed_by(alloc, clauses, steps, &last)?;
    let mut kept = Vec::new(alloc);
    let mut places = Vec::new(alloc);
    keep_needed(alloc, clauses, steps, &mut kept, &mut places, &needed)?;
    match number_in(clauses, places.as_slice(), goal) {
        Some(number) => Ok(Refutation {
            steps: kept,
            goal: Some(number),
        }),
        None => {
            let steps = copy_steps(alloc, steps)?;
            Ok(Refutation {
                steps,
                goal: Some(goal),
            })
        }
    }
}

/// The refutation whose goal is the clause of one step more.
pub fn refutation_with(
    alloc: Global,
    clauses: u64,
    steps: &[Step],
    last: Step,
    goal: u64,
) -> Result<Refutation, NoMemory>
    ensures { IfOk result (λ r. (cnf : List (List Lit)) (assume : List Lit) → length cnf ≡ clauses
        → verdict_of cnf assume (steps.now ++ last ∷ []) (Some goal) ≡ Accepted → IsRefutation cnf assume r) }
{
    let needed = needed_by(alloc, clauses, steps, &last)?;
    let mut kept = Vec::new(alloc);
    let mut places = Vec::new(alloc);
    keep_needed(alloc, clauses, steps, &mut kept, &mut places, &needed)?;
    keep(alloc, clauses, &mut kept, &mut places, &last, steps.len())?;
    match number_in(clauses, places.as_slice(), goal) {
        Some(number) => Ok(Refutation {
            steps: kept,
            goal: Some(number),
        }),
        None => {
            let mut steps = copy_steps(alloc, steps)?;
            steps.push(last)?;
            Ok(Refutation {
                steps,
                goal: Some(goal),
            })
        }
    }
}
