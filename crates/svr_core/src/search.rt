// The search for a core.

ghost use Rattle.std.specs.Prelude.{◌≡◌, ◌++◌, ◌∷◌, ◌≤◌, ◌<◌, ◌^◌, false, IfOk, OnOk, length, take};
ghost use Rattle.svr_chain.specs.Clauses.{AreWithin, is_tautology};
ghost use Rattle.svr_query.specs.Answer.{IsRefutation};
ghost use Rattle.svr_soft.specs.Later.{IsLater};
ghost use Rattle.svr_core.specs.Groups as spec;
ghost use Rattle.svr_core.specs.Groups.{asked, lits_at, lits_of};
ghost use Rattle.svr_core.specs.Cores.{places_of};
ghost use Rattle.svr_core.specs.End.{IsCoreEnd};

use crate::memory::NoMemory;
use sqlite_items::Items;
use std::alloc::Global;
use svr_chain::{Lit, Refutation};
use svr_query::{Answer, Solver};

/// A group of a core, by its place in the list, with values of the variables from 1 on that meet all of the core but this group: it cannot be left out.
#[derive(Drop)]
pub struct Needed {
    pub place: u32,
    pub values: Items<bool>,
}

/// What the search for a core comes to.
#[derive(Drop)]
pub enum CoreEnd {
    /// Values of the variables from 1 on that meet the clauses, the base and all groups.
    Met(Vec<bool>),
    /// The groups of the core in their order, and a refutation of the base together with them.
    Refuted {
        core: Vec<Needed>,
        refutation: Refutation,
    },
    /// A question spent the budget: its steps begin at place `first` of the log.
    Spent {
        log: Refutation,
        first: u64,
    },
}

/// The group at a place, empty where there is none.
fn group_at(groups: &[Items<Lit>], place: usize) -> &[Lit]
    ensures { result.now ≡ spec.group_at groups.now place }
{
    match groups.get(place) {
        Some(group) => group.as_slice(),
        None => &[],
    }
}

/// The groups before a place.
fn groups_before(groups: &[Items<Lit>], place: usize) -> &[Items<Lit>]
    requires { place ≤ length groups.now }
    ensures { result.now ≡ take place groups.now }
{
    &groups[..place]
}

/// Puts all groups behind other literals.
fn put_groups(lits: &mut Vec<Lit>, groups: &[Items<Lit>]) -> Result<(), NoMemory>
    ensures { OnOk result (lits.new.items ≡ lits.old.items ++ lits_of groups.now) }
{
    for group in groups {
        lits.extend_from_slice(group.as_slice())?;
    }
    Ok(())
}

/// Puts the groups of a core behind other literals.
pub fn put_core(lits: &mut Vec<Lit>, groups: &[Items<Lit>], core: &[Needed]) -> Result<(), NoMemory>
    ensures { OnOk result (lits.new.items ≡ lits.old.items ++ lits_at groups.now (places_of core.now)) }
{
    for needed in core {
        lits.extend_from_slice(group_at(groups, needed.place as usize))?;
    }
    Ok(())
}

/// The base and all groups.
fn everything(alloc: Global, base: &[Lit], groups: &[Items<Lit>]) -> Result<Vec<Lit>, NoMemory>
    ensures { IfOk result (λ ls. ls.items ≡ base.now ++ lits_of groups.now) }
{
    let mut lits = Vec::from_slice(alloc, base)?;
    put_groups(&mut lits, groups)?;
    Ok(lits)
}

/// The base, the groups before a place, and those of the core behind it.
fn question(
    alloc: Global,
    base: &[Lit],
    groups: &[Items<Lit>],
    place: usize,
    core: &[Needed],
) -> Result<Vec<Lit>, NoMemory>
    requires { place ≤ length groups.now }
    ensures { IfOk result (λ ls. ls.items ≡ asked base.now groups.now place (places_of core.now)) }
{
    let mut lits = everything(alloc, base, groups_before(groups, place))?;
    put_core(&mut lits, groups, core)?;
    Ok(lits)
}

/// Puts a group at the front of a core.
fn put_first(core: &mut Vec<Needed>, place: usize, values: Vec<bool>) -> Result<(), NoMemory>
    requires { place < 2 ^ 32 }
    ensures { OnOk result (core.new.items ≡ record { place = place; values = values.items } ∷ core.old.items) }
{
    let values = Items::from_vec(values);
    let place = place as u32;
    core.insert(0, Needed { place, values })?;
    Ok(())
}

/// The core of groups that are refuted as a whole: from the last one to the first, a group is left out where the base, the groups before it and those of the core behind it are refuted without it.
fn shrink(
    alloc: Global,
    solver: &mut Solver,
    base: &[Lit],
    groups: &[Items<Lit>],
    refuted: Refutation,
    prefer: &[bool],
    budget: u64,
) -> Result<CoreEnd, NoMemory>
    requires few { length groups.now < 2 ^ 32 }
    requires within { AreWithin solver.old.vars (base.now ++ lits_of groups.now) }
    requires apart { is_tautology (base.now ++ lits_of groups.now) ≡ false }
    requires prefer { length prefer.now ≡ solver.old.vars }
    requires budget { 1 ≤ budget }
    requires refuted { IsRefutation solver.old.clauses (base.now ++ lits_of groups.now) refuted }
    ensures later { IsLater solver.old solver.new }
    ensures end { IfOk result (IsCoreEnd solver.old base.now groups.now budget) }
{
    let mut refutation = refuted;
    let mut core = Vec::new(alloc);
    let mut place = groups.len();
    while place > 0 {
        place -= 1;
        let found = core.as_slice();
        let assumed = question(alloc, base, groups, place, found)?;
        let lits = assumed.as_slice();
        let answer = solver.ask(lits, prefer, budget)?;
        // Each arm goes on by itself, so that the prover sees no join.
        match answer {
            Answer::Satisfied(values) => {
                put_first(&mut core, place, values)?;
                continue;
            }
            Answer::Refuted(log) => {
                refutation = log;
                continue;
            }
            Answer::Spent { log, first } => {
                return Ok(CoreEnd::Spent { log, first });
            }
        }
    }
    Ok(CoreEnd::Refuted { core, refutation })
}

/// Which groups of literals contradict each other under the clauses and a base that is assumed with each question. There is one question for all groups, and where that is refuted one for each.
///
/// The search tries the preferred values first. After want of memory the solver has its clauses and its earlier steps, and can be asked again.
pub fn find_core(
    alloc: Global,
    solver: &mut Solver,
    base: &[Lit],
    groups: &[Items<Lit>],
    prefer: &[bool],
    budget: u64,
) -> Result<CoreEnd, NoMemory>
    requires few { length groups.now < 2 ^ 32 }
    requires within { AreWithin solver.old.vars (base.now ++ lits_of groups.now) }
    requires apart { is_tautology (base.now ++ lits_of groups.now) ≡ false }
    requires prefer { length prefer.now ≡ solver.old.vars }
    requires budget { 1 ≤ budget }
    ensures later { IsLater solver.old solver.new }
    ensures end { IfOk result (IsCoreEnd solver.old base.now groups.now budget) }
{
    let all = everything(alloc, base, groups)?;
    let lits = all.as_slice();
    let answer = solver.ask(lits, prefer, budget)?;
    match answer {
        Answer::Satisfied(values) => Ok(CoreEnd::Met(values)),
        Answer::Refuted(log) => shrink(alloc, solver, base, groups, log, prefer, budget),
        Answer::Spent { log, first } => Ok(CoreEnd::Spent { log, first }),
    }
}
