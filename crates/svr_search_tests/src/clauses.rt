//! Literals and clauses of numbers: a literal is its variable, which is negative where the literal is a negation.

ghost use Rattle.std.specs.Prelude.{◌≡◌, ◌≤◌, true, All, IfOk, OnOk, length};
ghost use Rattle.svr_chain.specs.Clauses.{IsWithin, AreWithin};

use std::alloc::{AllocError, Global};
use svr_chain::{Clause, Cnf, Lit};

/// The literal of a number, which names one of so many variables.
pub(crate) fn lit(vars: u64, number: i64) -> Lit
    requires { 1 ≤ vars }
    ensures { IsWithin vars result }
{
    Lit {
        var: number.unsigned_abs().max(1).min(vars),
        neg: number < 0,
    }
}

pub(crate) fn lits(alloc: Global, vars: u64, numbers: &[i64]) -> Result<Vec<Lit>, AllocError>
    requires { 1 ≤ vars }
    ensures { IfOk result (λ v. AreWithin vars v.items) }
{
    let mut lits = Vec::new(alloc);
    for number in numbers {
        lits.push(lit(vars, *number))?;
    }
    Ok(lits)
}

/// The clauses of a table are added to a list.
fn add_clauses(
    alloc: Global,
    vars: u64,
    table: &[&[i64]],
    clauses: &mut Vec<Clause>,
) -> Result<(), AllocError>
    requires vars { 1 ≤ vars }
    requires within { All (AreWithin vars) clauses.old.items }
    ensures { OnOk result (All (AreWithin vars) clauses.new.items) }
{
    for numbers in table {
        let lits = lits(alloc, vars, numbers)?;
        clauses.push(Clause::new(lits))?;
    }
    Ok(())
}

/// Clauses over so many variables.
pub(crate) fn cnf(alloc: Global, vars: u64, table: &[&[i64]]) -> Result<Cnf, AllocError>
    requires { 1 ≤ vars }
    ensures vars { IfOk result (λ c. c.vars ≡ vars) }
    ensures within { IfOk result (λ c. All (AreWithin vars) c.clauses.items) }
{
    let mut clauses = Vec::new(alloc);
    add_clauses(alloc, vars, table, &mut clauses)?;
    Ok(Cnf { vars, clauses })
}

/// Nothing is preferred.
const NO_WISHES: [bool; 64] = [false; 64];

/// For so many variables nothing is preferred.
pub(crate) fn no_wishes(vars: u64) -> &'static [bool]
    requires { vars ≤ 64 }
    ensures { length result.now ≡ vars }
{
    let all: &'static [bool] = &NO_WISHES;
    let (wishes, _rest) = all.split_at(vars as usize);
    wishes
}

pub(crate) fn are_within(vars: u64, lits: &[Lit]) -> bool
    ensures { result ≡ true → AreWithin vars lits.now }
{
    lits.iter().all(|lit| 0 < lit.var && lit.var <= vars)
}
