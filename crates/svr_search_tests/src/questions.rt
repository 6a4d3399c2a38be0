// Small questions, and their answers.

ghost use Rattle.std.specs.Prelude.{◌≡◌, ◌≤◌, IfOk};

use crate::clauses::cnf;
use crate::memory::let_go;
use std::alloc::Global;
use svr_chain::{Cnf, Lit, Verdict, check};
use svr_query::{Answer, NoMemory, Solver};

/// The clauses that no pair of values meets.
const ALL_PAIRS: &[&[i64]] = &[&[1, 2], &[1, -2], &[-1, 2], &[-1, -2]];

/// A solver over so many variables.
pub(crate) fn solver_of(alloc: Global, vars: u64, table: &[&[i64]]) -> Result<Solver, NoMemory>
    requires { 1 ≤ vars }
    ensures { IfOk result (λ s. s.vars ≡ vars) }
{
    Solver::new(alloc, cnf(alloc, vars, table)?)
}

/// A solver with both variables as bits.
fn solver_with_bits(alloc: Global, table: &[&[i64]]) -> Result<Solver, NoMemory>
    ensures { IfOk result (λ s. s.vars ≡ 2) }
{
    let one = Lit { var: 1, neg: false };
    let two = Lit { var: 2, neg: false };
    let bits = Vec::from_slice(alloc, &[one, two])?;
    let cnf = cnf(alloc, 2, table)?;
    Solver::with_bits(alloc, cnf, bits)
}

/// Whether 1 is possible with just both.
fn is_possible(solver: &mut Solver) -> bool
    requires { solver.old.vars ≡ 2 }
    ensures { solver.new.vars ≡ 2 }
{
    let one = Lit { var: 1, neg: false };
    let answer = solver.ask(&[one], &[false, false], 10);
    let is_so = match &answer {
        Ok(Answer::Satisfied(values)) => values.as_slice() == [true, true].as_slice(),
        _ => false,
    };
    let_go(answer);
    is_so
}

/// Whether 1 and not 2 is refuted by the first clause alone.
fn is_refuted_at_once(solver: &mut Solver) -> bool
    requires { solver.old.vars ≡ 2 }
{
    let one = Lit { var: 1, neg: false };
    let not_two = Lit { var: 2, neg: true };
    let answer = solver.ask(&[one, not_two], &[false, false], 10);
    let is_so = match &answer {
        Ok(Answer::Refuted(log)) => log.steps.is_empty() && log.goal == Some(1),
        _ => false,
    };
    let_go(answer);
    is_so
}

#[test]
fn asks_under_assumptions(rt: HostRuntime) {
    let mut made = solver_of(rt.alloc(), 2, &[&[-1, 2]]);
    let is_so = match &mut made {
        Ok(solver) => is_possible(solver) && is_refuted_at_once(solver),
        Err(_) => false,
    };
    let_go(made);
    assert!(rt; is_so);
}

/// Whether one step is too few, and is the only one of the log.
fn is_spent(solver: &mut Solver) -> bool
    requires { solver.old.vars ≡ 2 }
    ensures { solver.new.vars ≡ 2 }
{
    let answer = solver.ask(&[], &[false, false], 1);
    let is_so = match &answer {
        Ok(Answer::Spent { log, first }) => *first == 0 && log.steps.len() == 1,
        _ => false,
    };
    let_go(answer);
    is_so
}

/// Whether an answer is that no values are possible, by a log that is accepted.
fn is_accepted(alloc: Global, cnf: &Cnf, answer: &Result<Answer, NoMemory>) -> bool {
    match answer {
        Ok(Answer::Refuted(log)) => match check(alloc, cnf, &[], log) {
            Ok(verdict) => verdict == Verdict::Accepted,
            Err(_) => false,
        },
        _ => false,
    }
}

/// Whether no values are possible, by a log that is accepted.
fn is_refuted(alloc: Global, mut solver: Solver, budget: u64) -> bool
    requires vars { solver.vars ≡ 2 }
    requires budget { 1 ≤ budget }
{
    let answer = solver.ask(&[], &[false, false], budget);
    let cnf = solver.into_cnf();
    let is_so = is_accepted(alloc, &cnf, &answer);
    let_go(cnf);
    let_go(answer);
    is_so
}

/// Whether one step is too few, and no values are possible.
fn is_refuted_behind_one_step(alloc: Global, mut solver: Solver) -> bool
    requires { solver.vars ≡ 2 }
{
    let is_spent = is_spent(&mut solver);
    let is_refuted = is_refuted(alloc, solver, 10);
    is_spent && is_refuted
}

fn refutes_all_pairs_behind_one_step(alloc: Global) -> bool {
    match solver_of(alloc, 2, ALL_PAIRS) {
        Ok(solver) => is_refuted_behind_one_step(alloc, solver),
        Err(_) => false,
    }
}

fn refutes_all_pairs_of_bits(alloc: Global) -> bool {
    match solver_with_bits(alloc, ALL_PAIRS) {
        Ok(solver) => is_refuted(alloc, solver, 8),
        Err(_) => false,
    }
}

#[test]
fn refutes_all_pairs(rt: HostRuntime) {
    assert!(rt; refutes_all_pairs_behind_one_step(rt.alloc()));
}

#[test]
fn answers_where_a_sweep_fits(rt: HostRuntime) {
    assert!(rt; refutes_all_pairs_of_bits(rt.alloc()));
}
