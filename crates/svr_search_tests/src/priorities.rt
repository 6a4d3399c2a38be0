//! The pass over small questions.

ghost use Rattle.std.specs.Prelude.{◌≡◌, ◌<◌, ◌≤◌, ◌^◌, ◌++◌, true, false, length, IfOk};
ghost use Rattle.svr_chain.specs.Clauses.{AreWithin, is_tautology};

use crate::clauses::{are_within, lits, no_wishes};
use crate::memory::let_go;
use crate::questions::solver_of;
use std::alloc::{AllocError, Global};
use svr_chain::{Lit, Refutation, have_opposites};
use svr_query::Solver;
use svr_soft::{NoMemory, PassEnd, pass};

/// A question to the pass over the variables 1 to `vars`, and what is told.
struct Case {
    vars: u64,
    clauses: &'static [&'static [i64]],
    base: &'static [i64],
    soft: &'static [i64],
    told: &'static [u32],
}

const SMALL: [Case; 8] = [
    Case {
        vars: 3,
        clauses: &[&[1, 2]],
        base: &[-1],
        soft: &[],
        told: &[0],
    },
    Case {
        vars: 3,
        clauses: &[&[1, 1]],
        base: &[-1],
        soft: &[],
        told: &[100],
    },
    Case {
        vars: 3,
        clauses: &[&[1, 2]],
        base: &[-1],
        soft: &[2],
        told: &[1, 0],
    },
    Case {
        vars: 3,
        clauses: &[&[1, 2]],
        base: &[-1],
        soft: &[-2],
        told: &[0, 1],
    },
    Case {
        vars: 3,
        clauses: &[&[1, 1]],
        base: &[-1],
        soft: &[2],
        told: &[100],
    },
    Case {
        vars: 3,
        clauses: &[&[1, 2]],
        base: &[],
        soft: &[1, -2, 3],
        told: &[1, 2, 3, 0],
    },
    Case {
        vars: 3,
        clauses: &[&[-1, -2], &[-2, -3]],
        base: &[],
        soft: &[1, 2, 3],
        told: &[1, 3, 0, 2],
    },
    Case {
        vars: 3,
        clauses: &[&[-1, -2], &[-2, -3]],
        base: &[],
        soft: &[2, 1, 3],
        told: &[1, 0, 2, 3],
    },
];

/// Of each two of forty literals in a row one has to go.
const FORTY: Case = Case {
    vars: 40,
    clauses: &[
        &[-1, -2],
        &[-3, -4],
        &[-5, -6],
        &[-7, -8],
        &[-9, -10],
        &[-11, -12],
        &[-13, -14],
        &[-15, -16],
        &[-17, -18],
        &[-19, -20],
        &[-21, -22],
        &[-23, -24],
        &[-25, -26],
        &[-27, -28],
        &[-29, -30],
        &[-31, -32],
        &[-33, -34],
        &[-35, -36],
        &[-37, -38],
        &[-39, -40],
    ],
    base: &[],
    soft: &[
        1, 2, 3, 4, 5, 6, 7, 8, 9, 10, 11, 12, 13, 14, 15, 16, 17, 18, 19, 20, 21, 22, 23, 24, 25,
        26, 27, 28, 29, 30, 31, 32, 33, 34, 35, 36, 37, 38, 39, 40,
    ],
    told: &[
        1, 3, 5, 7, 9, 11, 13, 15, 17, 19, 21, 23, 25, 27, 29, 31, 33, 35, 37, 39, 0, 2, 4, 6, 8,
        10, 12, 14, 16, 18, 20, 22, 24, 26, 28, 30, 32, 34, 36, 38, 40,
    ],
};

/// The number at a place, and one that is told nowhere past the end.
fn number_at(told: &[u32], at: usize) -> u32 {
    match told.get(at) {
        Some(number) => *number,
        None => u32::MAX,
    }
}

/// Whether the kept ranks, 0 and the dropped ranks are told.
fn is_done(kept: &[u32], dropped: &[(u32, Refutation)], told: &[u32]) -> bool {
    let mut at: usize = 0;
    for rank in kept {
        if number_at(told, at) != *rank {
            return false;
        }
        at = at.wrapping_add(1);
    }
    if number_at(told, at) != 0 {
        return false;
    }
    for (rank, _log) in dropped {
        at = at.wrapping_add(1);
        if number_at(told, at) != *rank {
            return false;
        }
    }
    told.len() == at.wrapping_add(1)
}

/// Whether an end is told: the kept ranks, 0 and the dropped ranks; 100 where the base is refuted, and 200 where the budget is spent.
fn is_end(end: &Result<PassEnd, NoMemory>, told: &[u32]) -> bool {
    match end {
        Ok(PassEnd::Done { kept, dropped, .. }) => is_done(kept, dropped, told),
        Ok(PassEnd::BaseRefuted(_)) => told.len() == 1 && number_at(told, 0) == 100,
        Ok(PassEnd::Spent { .. }) => told.len() == 1 && number_at(told, 0) == 200,
        Err(_) => false,
    }
}

/// Whether literals are such as the pass asks for.
fn are_askable(alloc: Global, vars: u64, base: &[Lit], soft: &[Lit]) -> Result<bool, AllocError>
    ensures within { IfOk result (λ b. b ≡ true → AreWithin vars (base.now ++ soft.now)) }
    ensures apart { IfOk result (λ b. b ≡ true → is_tautology (base.now ++ soft.now) ≡ false) }
    ensures few { IfOk result (λ b. b ≡ true → length soft.now < 2 ^ 32) }
{
    let mut all = Vec::from_slice(alloc, base)?;
    all.extend_from_slice(soft)?;
    Ok(are_within(vars, &all) && !have_opposites(&all) && soft.len() <= 1000)
}

/// Whether the pass over these literals comes to what is told, where they are as it asks.
fn passes(
    alloc: Global,
    solver: &mut Solver,
    base: &[Lit],
    soft: &[Lit],
    prefer: &[bool],
    told: &[u32],
) -> Result<bool, NoMemory>
    requires { length prefer.now ≡ solver.old.vars }
{
    if !are_askable(alloc, prefer.len() as u64, base, soft)? {
        return Ok(false);
    }
    let end = pass(alloc, solver, base, soft, prefer, 10);
    let is_so = is_end(&end, told);
    let_go(end);
    Ok(is_so)
}

fn is_told_of(alloc: Global, solver: &mut Solver, vars: u64, case: &Case) -> bool
    requires some { 1 ≤ vars }
    requires few { vars ≤ 64 }
    requires vars { solver.old.vars ≡ vars }
{
    let base = lits(alloc, vars, case.base);
    let soft = lits(alloc, vars, case.soft);
    let prefer = no_wishes(vars);
    let is_so = match &base {
        Ok(base) => match &soft {
            Ok(soft) => passes(alloc, solver, base, soft, prefer, case.told),
            Err(_) => Ok(false),
        },
        Err(_) => Ok(false),
    };
    let_go(base);
    let_go(soft);
    match is_so {
        Ok(is_so) => is_so,
        Err(_) => false,
    }
}

fn is_told(alloc: Global, case: &Case) -> bool {
    let vars = case.vars.max(1);
    if vars > 64 {
        return false;
    }
    let mut made = solver_of(alloc, vars, case.clauses);
    let is_so = match &mut made {
        Ok(solver) => is_told_of(alloc, solver, vars, case),
        Err(_) => false,
    };
    let_go(made);
    is_so
}

#[test]
fn keeps_the_first_that_can_hold(rt: HostRuntime) {
    for case in &SMALL {
        assert!(rt; is_told(rt.alloc(), case));
    }
}

#[test]
fn keeps_each_second_of_forty(rt: HostRuntime) {
    assert!(rt; is_told(rt.alloc(), &FORTY));
}
