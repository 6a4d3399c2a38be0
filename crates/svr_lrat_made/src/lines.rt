// The lines of the needed steps.

ghost use Rattle.std.specs.Prelude.{◌≡◌, ◌+◌, ◌++◌, ◌∷◌, [], length, map, reverse, IfOk, OnOk};
ghost use Rattle.std.specs.Option.{option_copied};
ghost use Rattle.std.specs.List.{slice_get};
ghost use Rattle.svr_chain.specs.Log.{named};
ghost use Rattle.svr_lrat_made.specs.Made as spec;

use crate::numbers::Numbers;
use sqlite_items::Items;
use std::alloc::Global;
use svr_chain::{Clause, Link, Lit, NoMemory, Step, resolve};
use svr_lrat_file::{Line, Number};

fn clause_at<'a>(given: &'a [Clause], derived: &'a [Clause], place: usize) -> Option<&'a Clause>
    ensures { option_copied result ≡ slice_get (given.now ++ derived.now) place }
{
    if place < given.len() {
        given.get(place)
    } else {
        derived.get(place - given.len())
    }
}

fn clause_in<'a>(given: &'a [Clause], derived: &'a [Clause], number: u64) -> Option<&'a Clause>
    ensures { option_copied result ≡ named (given.now ++ derived.now) number }
{
    if number == 0 {
        return None;
    }
    clause_at(given, derived, (number - 1) as usize)
}

/// The literals of the clause of a number, none where there is no such clause. The clauses of the formula are given, those of steps derived.
pub(crate) fn lits_at<'a>(given: &'a [Clause], derived: &'a [Clause], number: u64) -> &'a [Lit]
    ensures { result.now ≡ spec.clause_at (given.now ++ derived.now) number }
{
    match clause_in(given, derived, number) {
        Some(clause) => clause.lits(),
        None => &[],
    }
}

/// What a step derives, link by link.
fn resolved(
    alloc: Global,
    given: &[Clause],
    derived: &[Clause],
    step: &Step,
) -> Result<Clause, NoMemory>
    ensures { IfOk result (λ c. c ≡ spec.resolved (given.now ++ derived.now) step.now) }
{
    let start = lits_at(given, derived, step.start);
    let links = step.links.as_slice();
    let mut so_far = Clause::new(Vec::from_slice(alloc, start)?);
    for link in links {
        let there = lits_at(given, derived, link.clause);
        so_far = resolve(alloc, so_far.lits(), link.pivot, there)?;
    }
    Ok(so_far)
}

/// The links from the last to the first.
fn turned(alloc: Global, links: &[Link]) -> Result<Vec<Link>, NoMemory>
    ensures { IfOk result (λ v. v.items ≡ reverse links.now) }
{
    Ok(links.iter().rev().copied().collect(alloc)?)
}

/// The clauses of these links.
fn link_hints(alloc: Global, numbers: &Numbers, links: &[Link]) -> Result<Vec<Number>, NoMemory>
    ensures { IfOk result (λ h. h.items ≡ map (spec.link_hint (spec.new_number numbers.now.inputs numbers.now.ids.items)) links.now) }
{
    let mut hints = Vec::new(alloc);
    for link in links {
        hints.push(numbers.hint(link.clause))?;
    }
    Ok(hints)
}

/// The linked clauses from the last to the first, and then the start.
fn hints_of(alloc: Global, numbers: &Numbers, step: &Step) -> Result<Vec<Number>, NoMemory>
    ensures { IfOk result (λ h. h.items ≡ spec.hints_of (spec.new_number numbers.now.inputs numbers.now.ids.items) step.now) }
{
    let links = step.links.as_slice();
    let reversed = turned(alloc, links)?;
    let back = reversed.as_slice();
    let mut hints = link_hints(alloc, numbers, back)?;
    hints.push(numbers.hint(step.start))?;
    Ok(hints)
}

/// The line of a step of this number.
fn line_of(
    alloc: Global,
    numbers: &Numbers,
    number: u64,
    lits: &[Lit],
    step: &Step,
) -> Result<Line, NoMemory>
    ensures { IfOk result (λ x. x ≡ spec.lemma_of (spec.new_number numbers.now.inputs numbers.now.ids.items) number lits.now step.now) }
{
    let hints = Items::from_vec(hints_of(alloc, numbers, step)?);
    let lits = Clause::new(Vec::from_slice(alloc, lits)?);
    Ok(Line::Lemma {
        id: numbers.number(number),
        lits,
        hints,
    })
}

/// The clauses of the steps so far, and the lines of those that are needed.
#[derive(Drop)]
pub(crate) struct Lines {
    pub(crate) derived: Vec<Clause>,
    pub(crate) lines: Vec<Line>,
}

impl Lines {
    /// One more step.
    fn take(
        &mut self,
        alloc: Global,
        numbers: &Numbers,
        given: &[Clause],
        mark: bool,
        step: &Step,
    ) -> Result<(), NoMemory>
        ensures derived { OnOk result (given.now ++ self.new.derived.items ≡ spec.with_step (given.now ++ self.old.derived.items) step.now) }
        ensures lines { OnOk result (self.new.lines.items ≡ self.old.lines.items ++ spec.if_needed mark (spec.line_of (spec.new_number numbers.now.inputs numbers.now.ids.items) (given.now ++ self.old.derived.items) step.now)) }
    {
        let clause = resolved(alloc, given, self.derived.as_slice(), step)?;
        if mark {
            let number = given.len() as u64 + self.derived.len() as u64 + 1;
            let line = line_of(alloc, numbers, number, clause.lits(), step)?;
            self.lines.push(line)?;
        }
        self.derived.push(clause)?;
        Ok(())
    }
}

/// The clauses of the steps, and the lines of the marked ones.
#[tactic(auto, using(crate::proofs::Growing::lines_more))]
pub(crate) fn lines_of(
    alloc: Global,
    numbers: &Numbers,
    given: &[Clause],
    marks: &[bool],
    steps: &[Step],
) -> Result<Lines, NoMemory>
    requires { length marks.now ≡ length steps.now }
    ensures derived { IfOk result (λ x. given.now ++ x.derived.items ≡ spec.with_steps given.now steps.now) }
    ensures lines { IfOk result (λ x. x.lines.items ≡ spec.lines_of (spec.new_number numbers.now.inputs numbers.now.ids.items) given.now marks.now steps.now) }
{
    let mut made = Lines {
        derived: Vec::new(alloc),
        lines: Vec::new(alloc),
    };
    let mut marks_left = marks;
    let mut steps_left = steps;
    while let [step, other_steps @ ..] = steps_left {
        let [mark, other_marks @ ..] = marks_left else {
            return Err(NoMemory);
        };
        made.take(alloc, numbers, given, *mark, step)?;
        marks_left = other_marks;
        steps_left = other_steps;
    }
    Ok(made)
}
