// Logs as the text of hinted derivations.

use std::alloc::{AllocError, Global};
use std::test::Fail;
use svr_chain::{Clause, Cnf, Link, Lit, NoMemory, Refutation, Step, Verdict, check};
use svr_lrat::{check_lrat, to_lrat};
use svr_lrat_judge::LratVerdict;

/// A step of one link: its start, its pivot and the linked clause. A literal is its variable, which is negative where the literal is a negation.
type Chain = (u64, i64, u64);

/// A derivation from clauses, with assumed literals: the number of variables, its clauses, these literals, its steps, its goal, and its text.
type Case = (
    u64,
    &'static [&'static [i64]],
    &'static [i64],
    &'static [Chain],
    u64,
    &'static [u8],
);

const CASES: [Case; 4] = [
    (
        2,
        &[&[1, 2], &[-1, 2], &[-2]],
        &[],
        &[(1, 1, 2), (4, 2, 3)],
        5,
        b"p cnf 2 3\n1 2 0\n-1 2 0\n-2 0\n4 2 0 2 1 0\n5 0 3 4 0\n",
    ),
    // the goal has a literal, which is denied, and a step that nothing needs is left out
    (
        3,
        &[&[1, 2], &[-1, 2], &[1, 3]],
        &[-3, -2],
        &[(3, 1, 2), (1, 1, 2)],
        5,
        b"p cnf 3 5\n1 2 0\n-1 2 0\n1 3 0\n-3 0\n-2 0\n6 2 0 2 1 0\n7 0 5 6 0\n",
    ),
    // the goal is a clause of the formula
    (
        3,
        &[&[1, -2]],
        &[-1, 2, -1],
        &[],
        1,
        b"p cnf 3 4\n1 -2 0\n-1 0\n2 0\n-1 0\n5 0 2 3 1 0\n",
    ),
    // and it is empty
    (3, &[&[]], &[], &[], 1, b"p cnf 3 1\n0\n"),
];

fn lit(number: i64) -> Lit {
    Lit {
        var: number.unsigned_abs(),
        neg: number < 0,
    }
}

fn lits(alloc: Global, numbers: &[i64]) -> Result<Vec<Lit>, AllocError> {
    let mut lits = Vec::new(alloc);
    for number in numbers {
        lits.push(lit(*number))?;
    }
    Ok(lits)
}

/// Lets a value go.
fn let_go<T: Drop>(_held: T) {}

fn cnf(alloc: Global, vars: u64, table: &[&[i64]]) -> Result<Cnf, AllocError> {
    let mut clauses = Vec::new(alloc);
    for numbers in table {
        clauses.push(Clause::new(lits(alloc, numbers)?))?;
    }
    Ok(Cnf { vars, clauses })
}

fn links(alloc: Global, pivot: i64, clause: u64) -> Result<Vec<Link>, AllocError> {
    let mut links = Vec::new(alloc);
    let pivot = lit(pivot);
    links.push(Link { pivot, clause })?;
    Ok(links)
}

fn steps(alloc: Global, chains: &[Chain]) -> Result<Vec<Step>, AllocError> {
    let mut steps = Vec::new(alloc);
    for (start, pivot, clause) in chains {
        steps.push(Step {
            start: *start,
            links: links(alloc, *pivot, *clause)?,
        })?;
    }
    Ok(steps)
}

/// The text of a log that is accepted.
fn written(
    alloc: Global,
    cnf: &Cnf,
    assume: &[Lit],
    steps: Vec<Step>,
    goal: u64,
) -> Result<Option<Vec<u8>>, NoMemory> {
    let log = Refutation {
        steps,
        goal: Some(goal),
    };
    let text = match check(alloc, cnf, assume, &log) {
        Ok(Verdict::Accepted) => match to_lrat(alloc, cnf, assume, &log) {
            Ok(text) => Ok(Some(text)),
            Err(error) => Err(error),
        },
        Ok(Verdict::Rejected { .. }) => Ok(None),
        Err(error) => Err(error),
    };
    let_go(log);
    text
}

/// The text of a log of these steps, over clauses that are let go behind.
fn written_over(
    alloc: Global,
    cnf: Cnf,
    assume: &[Lit],
    chains: &[Chain],
    goal: u64,
) -> Result<Option<Vec<u8>>, NoMemory> {
    let text = match steps(alloc, chains) {
        Ok(steps) => written(alloc, &cnf, assume, steps, goal),
        Err(_) => Err(NoMemory),
    };
    let_go(cnf);
    text
}

fn is_written(alloc: Global, case: &Case) -> Result<bool, NoMemory> {
    let (vars, clauses, assume, chains, goal, text) = case;
    let assumed = lits(alloc, assume)?;
    let cnf = cnf(alloc, *vars, clauses)?;
    match written_over(alloc, cnf, assumed.as_slice(), chains, *goal)? {
        Some(bytes) => Ok(bytes.as_slice() == *text),
        None => Ok(false),
    }
}

#[test]
fn writes_logs(rt: HostRuntime) -> Result<(), Fail> {
    for case in &CASES {
        assert!(rt; is_written(rt.alloc(), case)?);
    }
    Ok(())
}

#[test]
fn accepts_what_is_written(rt: HostRuntime) -> Result<(), Fail> {
    for (_, _, _, _, _, text) in &CASES {
        assert!(rt; text.len() <= 100);
        assert!(rt; check_lrat(rt.alloc(), text) == Ok(LratVerdict::Accepted));
    }
    Ok(())
}
