//! Clauses under 64 valuations at once, each of which has one bit of each word.

use crate::held::{added, let_go};
use std::alloc::Global;
use svr_chain::{Clause, Cnf, Lit};

/// What the clauses say of the first root.
#[derive(Clone, Copy)]
pub(crate) struct Told {
    /// Where the other variables meet the clauses, and would not with the other value of the root.
    pub(crate) is_settled: u64,
    /// Where it is true.
    pub(crate) is_true: u64,
}

/// Where the literal holds; a variable without a value is false.
fn holds(lit: Lit, values: &[u64]) -> u64 {
    let value = match values.get(lit.var as usize) {
        Some(value) => *value,
        None => 0,
    };
    if lit.neg { !value } else { value }
}

/// Where the clause is met by variables other than `but`.
fn is_met(clause: &Clause, but: u64, values: &[u64]) -> u64 {
    let mut found = 0;
    for lit in clause.lits() {
        if lit.var != but {
            found |= holds(*lit, values);
        }
    }
    found
}

fn are_met(cnf: &Cnf, values: &[u64]) -> u64 {
    let mut all = u64::MAX;
    for clause in &cnf.clauses {
        all &= is_met(clause, 0, values);
    }
    all
}

/// The literal of the highest variable of a clause.
fn top_of(clause: &Clause) -> Lit {
    let mut top = Lit { var: 0, neg: true };
    for lit in clause.lits() {
        if lit.var > top.var {
            top = *lit;
        }
    }
    top
}

/// The values of so many variables, from 0, of which those from 1 on begin with `bits`.
fn begin(values: &mut Vec<u64>, vars: u64, bits: &[u64]) {
    added(values, 0);
    for word in bits {
        added(values, *word);
    }
    for _ in bits.len() as u64..vars {
        added(values, 0);
    }
}

/// Behind the first `count` variables one is true where a clause over lower ones needs it.
fn settle(cnf: &Cnf, count: usize, values: &mut [u64]) {
    for clause in &cnf.clauses {
        let top = top_of(clause);
        let at = top.var as usize;
        if !top.neg && at > count && at < values.len() {
            values[at] |= !is_met(clause, top.var, values);
        }
    }
}

/// What the clauses say of a root under values of the variables.
fn told_of(cnf: &Cnf, root: Lit, values: &mut [u64]) -> Told {
    let is_true = holds(root, values);
    let can_be = are_met(cnf, values);
    let at = root.var as usize;
    if at < values.len() {
        values[at] = !values[at];
    }
    let can_be_other = are_met(cnf, values);
    Told {
        is_settled: can_be & !can_be_other,
        is_true,
    }
}

/// What the clauses say of the root, where the first variables have the values of `bits`.
pub(crate) fn root_value(alloc: Global, cnf: &Cnf, root: Lit, bits: &[u64]) -> Told {
    let mut values = Vec::new(alloc);
    begin(&mut values, cnf.vars, bits);
    settle(cnf, bits.len(), &mut values);
    let told = told_of(cnf, root, &mut values);
    let_go(values);
    told
}
