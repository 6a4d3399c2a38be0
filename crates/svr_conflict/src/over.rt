// The search for a core over the clauses of an encoding.

ghost use Rattle.std.specs.Prelude.{◌≡◌, ◌≤◌, ◌++◌, false, [], Some, length, IfOk};
ghost use Rattle.std.specs.List.{All};
ghost use Rattle.svr_chain.specs.Clauses.{AreWithin, is_tautology};
ghost use Rattle.svr_chain.specs.Settled.{AreSettled};
ghost use Rattle.svr_query.specs.Bits.{AreFirst};
ghost use Rattle.svr_core.specs.Groups.{lits_of};
ghost use Rattle.svr_core.specs.End.{IsCoreEnd};

use crate::memory::NoMemory;
use sqlite_items::Items;
use std::alloc::Global;
use svr_chain::{Cnf, Lit};
use svr_core::{CoreEnd, find_core};
use svr_query::Solver;

/// The clauses, given back, and how the search for a core ended.
#[derive(Drop)]
pub(crate) struct Over {
    pub cnf: Cnf,
    pub end: CoreEnd,
}

/// The core of groups of literals, with a new solver over the clauses, whose first variables are the bits. Places are numbers of 32 bits.
pub(crate) fn core_over(
    alloc: Global,
    cnf: Cnf,
    bits: Vec<Lit>,
    base: &[Lit],
    groups: &[Items<Lit>],
    budget: u64,
) -> Result<Over, NoMemory>
    requires clauses { All (AreWithin cnf.vars) cnf.clauses.items }
    requires bits { AreWithin cnf.vars bits.items }
    requires first { AreFirst bits.items }
    requires settled { AreSettled (length bits.items) cnf.vars cnf.clauses.items }
    requires within { AreWithin cnf.vars (base.now ++ lits_of groups.now) }
    requires apart { is_tautology (base.now ++ lits_of groups.now) ≡ false }
    requires budget { 1 ≤ budget }
    ensures vars { IfOk result (λ r. r.cnf.vars ≡ cnf.vars) }
    ensures clauses { IfOk result (λ r. r.cnf.clauses.items ≡ cnf.clauses.items) }
    ensures end { IfOk result (λ r. IsCoreEnd (record { vars = cnf.vars; clauses = cnf.clauses.items; steps = []; bits = Some (length bits.items) }) base.now groups.now budget r.end) }
{
    if groups.len() > u32::MAX as usize {
        return Err(NoMemory);
    }
    let wanted = vec![in alloc; false; cnf.vars as usize]?;
    let mut solver = Solver::with_bits(alloc, cnf, bits)?;
    let prefer = wanted.as_slice();
    let end = find_core(alloc, &mut solver, base, groups, prefer, budget)?;
    let cnf = solver.into_cnf();
    Ok(Over { cnf, end })
}
