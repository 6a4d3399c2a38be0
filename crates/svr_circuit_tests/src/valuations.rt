//! Literals and clauses under values of the variables; the values from 1 up are those of the variables 1 up.

ghost use Rattle.std.specs.Prelude.{◌≡◌, false};

use svr_chain::{Cnf, Lit};

pub(crate) fn input(var: u64) -> Lit
    ensures { result ≡ record { var = var; neg = false } }
{
    Lit { var, neg: false }
}

/// Whether the literal holds; one without a value does not.
pub(crate) fn holds(lit: Lit, values: &[bool]) -> bool {
    match values.get(lit.var as usize) {
        Some(value) => *value != lit.neg,
        None => false,
    }
}

/// Whether a literal of them holds.
pub(crate) fn any_holds(lits: &[Lit], values: &[bool]) -> bool {
    for lit in lits {
        if holds(*lit, values) {
            return true;
        }
    }
    false
}

pub(crate) fn meets(cnf: &Cnf, values: &[bool]) -> bool {
    for clause in &cnf.clauses {
        if !any_holds(clause.lits(), values) {
            return false;
        }
    }
    true
}
