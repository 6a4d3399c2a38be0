// The file that a log makes.

ghost use Rattle.std.specs.Prelude.{◌≡◌, ◌+◌, ◌++◌, [], true, length, unwrap_or, IfOk, IsSome, OnOk};
ghost use Rattle.svr_chain.specs.Log as chain;
ghost use Rattle.svr_chain.specs.declared.log.Verdict.TheVariants as log_is;
ghost use Rattle.svr_lrat_judge.specs.declared.verdict.LratVerdict.TheVariants as says;
ghost use Rattle.svr_lrat_judge.specs.Verdict as judge;
ghost use Rattle.svr_lrat_made.specs.Made as spec;
ghost use Rattle.svr_lrat_made.specs.Leads.{each_leads_on, is_numbered};
ghost use Rattle.std.specs.List.{list_all};

use crate::lines::{lines_of, lits_at};
use crate::needed::needed;
use crate::numbers::{Numbers, hint, next, plus};
use sqlite_items::Items;
use std::alloc::Global;
use svr_chain::{Clause, Cnf, Lit, NoMemory, Refutation, Step};
use svr_lrat_file::{Line, LratFile, Number};

/// The clauses of the formula, and a unit clause for each assumed literal.
fn with_units(alloc: Global, given: &[Clause], assume: &[Lit]) -> Result<Vec<Clause>, NoMemory>
    ensures { IfOk result (λ cs. cs.items ≡ spec.with_units given.now assume.now) }
{
    let mut clauses = Vec::new(alloc);
    for clause in given {
        clauses.push(Clause::new(Vec::from_slice(alloc, clause.lits())?))?;
    }
    for lit in assume {
        clauses.push(Clause::new(Vec::from_slice(alloc, &[*lit])?))?;
    }
    Ok(clauses)
}

/// The place of the first literal of its kind, or how many there are.
fn place_of(assume: &[Lit], lit: Lit) -> u64
    ensures { result ≡ spec.place_of assume.now lit }
{
    for (place, other) in assume.iter().enumerate() {
        if *other == lit {
            return place as u64;
        }
    }
    assume.len() as u64
}

/// The hint that names the unit clause that denies a literal.
fn denying_hint(inputs: u64, assume: &[Lit], lit: Lit) -> Result<Number, NoMemory>
    ensures { IfOk result (λ n. n ≡ spec.denying_hint inputs assume.now lit) }
{
    let before = plus(inputs, place_of(assume, lit.flipped()))?;
    Ok(hint(next(before)?))
}

/// The units that deny the literals of the goal, and the goal.
fn last_hints(
    alloc: Global,
    inputs: u64,
    assume: &[Lit],
    goal: u64,
    lits: &[Lit],
) -> Result<Vec<Number>, NoMemory>
    ensures { IfOk result (λ h. h.items ≡ spec.last_hints inputs assume.now goal lits.now) }
{
    let mut hints = Vec::new(alloc);
    for lit in lits {
        hints.push(denying_hint(inputs, assume, *lit)?)?;
    }
    hints.push(hint(goal))?;
    Ok(hints)
}

fn has_no_literal(lits: &[Lit]) -> bool
    ensures { result ≡ judge.is_nil lits.now }
{
    match lits.split_first() {
        None => true,
        Some(_) => false,
    }
}

/// A last line, with no literal, where the clause of the goal has some.
fn close(
    alloc: Global,
    lines: &mut Vec<Line>,
    last: u64,
    inputs: u64,
    assume: &[Lit],
    goal: u64,
    lits: &[Lit],
) -> Result<(), NoMemory>
    ensures { OnOk result (lines.new.items ≡ lines.old.items ++ spec.last_line (last + length lines.old.items + 1) inputs assume.now goal lits.now) }
{
    if has_no_literal(lits) {
        return Ok(());
    }
    let id = next(plus(last, lines.len() as u64)?)?;
    let hints = Items::from_vec(last_hints(alloc, inputs, assume, goal, lits)?);
    lines.push(Line::Lemma {
        id,
        lits: Clause::new(Vec::new(alloc)),
        hints,
    })?;
    Ok(())
}

/// The lines of the steps that the goal depends on, and the last one.
fn all_lines(
    alloc: Global,
    given: &[Clause],
    assume: &[Lit],
    steps: &[Step],
    goal: u64,
) -> Result<Vec<Line>, NoMemory>
    ensures { IfOk result (λ ls. ls.items ≡ spec.all_lines given.now assume.now steps.now goal) }
{
    let inputs = given.len() as u64;
    let last = plus(inputs, assume.len() as u64)?;
    let marks = needed(alloc, next(inputs)?, goal, steps)?;
    let numbers = Numbers::new(alloc, inputs, last, marks.as_slice())?;
    let mut made = lines_of(alloc, &numbers, given, marks.as_slice(), steps)?;
    let lits = lits_at(given, made.derived.as_slice(), goal);
    let number = numbers.number(goal);
    close(alloc, &mut made.lines, last, inputs, assume, number, lits)?;
    Ok(made.lines)
}

fn file_of(
    alloc: Global,
    vars: u64,
    given: &[Clause],
    assume: &[Lit],
    steps: &[Step],
    goal: u64,
) -> Result<LratFile, NoMemory>
    ensures { IfOk result (λ f. f ≡ spec.file_of vars given.now assume.now steps.now goal) }
{
    let lines = all_lines(alloc, given, assume, steps, goal)?;
    let clauses = with_units(alloc, given, assume)?;
    Ok(LratFile {
        vars,
        clauses,
        lines,
    })
}

/// The hinted derivation that an accepted log with a goal is: the clauses, a unit clause for each assumed literal, and a line for each step that the goal depends on.
///
/// The hints of a step are its linked clauses from the last to the first, then its start. Where the clause of the goal has literals, a last line without any has the units that deny them as hints, and the goal.
pub fn made(
    alloc: Global,
    cnf: &Cnf,
    assume: &[Lit],
    log: &Refutation,
) -> Result<LratFile, NoMemory>
    requires goal { IsSome log.now.goal }
    requires accepted { chain.verdict_of cnf.now.clauses.items assume.now log.now.steps log.now.goal ≡ log_is.Accepted }
    ensures file { IfOk result (λ f. f ≡ spec.file_of cnf.now.vars cnf.now.clauses.items assume.now log.now.steps (unwrap_or log.now.goal 0)) }
    ensures accepted { IfOk result (λ f. judge.verdict_of f ≡ says.Accepted) }

    // No line but the last is there in vain, and identifiers and hints are no more than there are clauses and lines.
    ensures leads { IfOk result (λ f. each_leads_on f.lines ≡ true) }
    ensures numbered { IfOk result (λ f. list_all (is_numbered (length f.clauses + length f.lines)) f.lines ≡ true) }
{
    let given = cnf.clauses.as_slice();
    let steps = log.steps.as_slice();
    let goal = log.goal.unwrap_or(0);
    file_of(alloc, cnf.vars, given, assume, steps, goal)
}
