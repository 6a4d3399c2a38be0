// The pass over the soft literals.

ghost use Rattle.std.specs.Prelude.{◌≡◌, ◌+◌, ◌++◌, ◌≤◌, ◌<◌, ◌^◌, false, IfOk, length, take};
ghost use Rattle.svr_chain.specs.Clauses.{AreWithin, is_tautology};
ghost use Rattle.svr_chain.specs.Valuations.{lit_value};
ghost use Rattle.svr_query.specs.Answer.{IsModel};
ghost use Rattle.svr_query.specs.Logged.{valuation_of};
ghost use Rattle.svr_soft.specs.End.{AllKeptBy, IsPassEnd};
ghost use Rattle.svr_soft.specs.Kept.{ranks_to};
ghost use Rattle.svr_soft.specs.Later.{IsLater};

use crate::memory::NoMemory;
use std::alloc::Global;
use svr_chain::{Lit, Refutation};
use svr_query::{Answer, Solver};

/// What the pass came to. Ranks are the places of the soft literals, counted from 1.
#[derive(Drop)]
pub enum PassEnd {
    /// The kept ranks, the others with a refutation each, and values that meet the clauses, the base and the kept literals.
    Done {
        kept: Vec<u32>,
        dropped: Vec<(u32, Refutation)>,
        values: Vec<bool>,
    },
    /// No valuation meets the clauses and the base.
    BaseRefuted(Refutation),
    /// The question of that rank, or of the base alone where there is none, spent the budget: its steps begin at place `first` of the log.
    Spent {
        rank: Option<u32>,
        log: Refutation,
        first: u64,
    },
}

/// The ranks of so many literals.
fn ranks(alloc: Global, count: usize) -> Result<Vec<u32>, NoMemory>
    requires { count < 2 ^ 32 }
    ensures { IfOk result (λ v. v.items ≡ ranks_to count) }
{
    let mut ranks = Vec::new(alloc);
    for place in 0..count {
        ranks.push(place as u32 + 1)?;
    }
    Ok(ranks)
}

/// Whether a literal is true under these values of the variables from 1 on.
#[tactic(auto, unfolding(svr_chain::specs::Valuations::lit_value))]
fn is_true(values: &[bool], lit: Lit) -> bool
    ensures { result ≡ lit_value (valuation_of values.now) lit }
{
    let value = match values.get(lit.var.saturating_sub(1) as usize) {
        Some(value) => *value,
        None => false,
    };
    if lit.neg { !value } else { value }
}

/// Keeps each soft literal that can hold together with the clauses, the base and those of the kept ones that stand before it.
///
/// One question tries all of them at once, and only where that fails, and there are some, there is one for the base and one for each that the values found last do not meet. After
/// want of memory the solver has its clauses and its earlier steps, and can be asked again.
pub fn pass(
    alloc: Global,
    solver: &mut Solver,
    base: &[Lit],
    soft: &[Lit],
    prefer: &[bool],
    budget: u64,
) -> Result<PassEnd, NoMemory>
    requires few { length soft.now < 2 ^ 32 }
    requires within { AreWithin solver.old.vars (base.now ++ soft.now) }
    requires apart { is_tautology (base.now ++ soft.now) ≡ false }
    requires prefer { length prefer.now ≡ solver.old.vars }
    requires budget { 1 ≤ budget }
    ensures vars { solver.new.vars ≡ solver.old.vars }
    ensures clauses { solver.new.clauses ≡ solver.old.clauses }
    ensures bits { solver.new.bits ≡ solver.old.bits }
    ensures begins { take (length solver.old.steps) solver.new.steps ≡ solver.old.steps }
    ensures end { IfOk result (IsPassEnd solver.old base.now soft.now budget) }
    ensures preferred { IsModel solver.old.clauses (base.now ++ soft.now) prefer.now → IfOk result (AllKeptBy prefer.now) }
{
    let mut all = Vec::from_slice(alloc, base)?;
    all.extend_from_slice(soft)?;
    match solver.ask(all.as_slice(), prefer, budget)? {
        Answer::Satisfied(values) => {
            let kept = ranks(alloc, soft.len())?;
            Ok(PassEnd::Done {
                kept,
                dropped: Vec::new(alloc),
                values,
            })
        }
        Answer::Refuted(refutation) => {
            if soft.is_empty() {
                return Ok(PassEnd::BaseRefuted(refutation));
            }
            pass_in_turn(alloc, solver, base, soft, prefer, budget)
        }
        Answer::Spent { log, first } => {
            if soft.is_empty() {
                return Ok(PassEnd::Spent {
                    rank: None,
                    log,
                    first,
                });
            }
            pass_in_turn(alloc, solver, base, soft, prefer, budget)
        }
    }
}

/// The pass with a question for the base and one for each soft literal that the values found last do not meet.
fn pass_in_turn(
    alloc: Global,
    solver: &mut Solver,
    base: &[Lit],
    soft: &[Lit],
    prefer: &[bool],
    budget: u64,
) -> Result<PassEnd, NoMemory>
    requires few { length soft.now < 2 ^ 32 }
    requires within { AreWithin solver.old.vars (base.now ++ soft.now) }
    requires apart { is_tautology (base.now ++ soft.now) ≡ false }
    requires prefer { length prefer.now ≡ solver.old.vars }
    requires budget { 1 ≤ budget }
    ensures vars { solver.new.vars ≡ solver.old.vars }
    ensures clauses { solver.new.clauses ≡ solver.old.clauses }
    ensures bits { solver.new.bits ≡ solver.old.bits }
    ensures begins { take (length solver.old.steps) solver.new.steps ≡ solver.old.steps }
    ensures end { IfOk result (IsPassEnd solver.old base.now soft.now budget) }
{
    let answer = solver.ask(base, prefer, budget)?;
    match answer {
        Answer::Satisfied(values) => {
            soft_in_turn(alloc, solver, base, soft, values, prefer, budget)
        }
        Answer::Refuted(log) => Ok(PassEnd::BaseRefuted(log)),
        Answer::Spent { log, first } => Ok(PassEnd::Spent {
            rank: None,
            log,
            first,
        }),
    }
}

/// A question for each soft literal that the values found last do not meet, behind the one for the base, which these values meet.
fn soft_in_turn(
    alloc: Global,
    solver: &mut Solver,
    base: &[Lit],
    soft: &[Lit],
    met: Vec<bool>,
    prefer: &[bool],
    budget: u64,
) -> Result<PassEnd, NoMemory>
    requires few { length soft.now < 2 ^ 32 }
    requires within { AreWithin solver.old.vars (base.now ++ soft.now) }
    requires apart { is_tautology (base.now ++ soft.now) ≡ false }
    requires prefer { length prefer.now ≡ solver.old.vars }
    requires budget { 1 ≤ budget }
    requires values { length met.items ≡ solver.old.vars }
    requires model { IsModel solver.old.clauses base.now met.items }
    ensures later { IsLater solver.old solver.new }
    ensures end { IfOk result (IsPassEnd solver.old base.now soft.now budget) }
{
    let mut assumed = Vec::from_slice(alloc, base)?;
    let mut values = met;
    let mut kept = Vec::new(alloc);
    let mut dropped = Vec::new(alloc);
    let mut rank: u32 = 0;
    for lit in soft {
        rank += 1;
        let stands = assumed.len();
        assumed.push(*lit)?;
        if is_true(values.as_slice(), *lit) {
            kept.push(rank)?;
            continue;
        }
        let answer = solver.ask(assumed.as_slice(), prefer, budget)?;
        // Each arm goes on by itself, so that the prover sees no join.
        match answer {
            Answer::Satisfied(found) => {
                values = found;
                kept.push(rank)?;
                continue;
            }
            Answer::Refuted(log) => {
                dropped.push((rank, log))?;
                assumed.truncate(stands);
                continue;
            }
            Answer::Spent { log, first } => {
                return Ok(PassEnd::Spent {
                    rank: Some(rank),
                    log,
                    first,
                });
            }
        }
    }
    Ok(PassEnd::Done {
        kept,
        dropped,
        values,
    })
}
