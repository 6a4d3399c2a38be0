// Single literals of a property that no assignment has: a value that spells one needs no question.

ghost use Rattle.std.specs.Prelude.{◌≡◌, [], ◌∷◌, ◌++◌, List, IfOk, IfSome, OnOk, true};
ghost use Rattle.std.specs.List.{All};
ghost use Rattle.svr_chain.specs.declared.clause.Lit.{Lit};
ghost use Rattle.svr_chain.specs.Views.{RefutationView};
ghost use Rattle.svr_query.specs.Answer.{IsRefutation};
ghost use Rattle.svr_cyclic.specs.Questions.{AreInFront, CanAsk, IsSought};
ghost use Rattle.svr_cyclic.specs.Denials.{AreDenied, IsDenied, IsOwn, AreOwn};

use crate::ask::{Asker, Asking, Sought, ask_with};
use crate::memory::NoMemory;
use std::alloc::Global;
use svr_chain::{Lit, Refutation, Step, has_lit};
use svr_query::Answer;

/// The steps that a question about a single literal may take.
const FEW: u64 = 1000;

/// A literal that no assignment has behind those in front, with the refutation that shows it.
#[derive(Drop)]
pub(crate) struct Denied {
    pub lit: Lit,
    pub refutation: Refutation,
}

/// What is known of the literals of a property: those that are denied, and those that were asked for.
#[derive(Drop)]
pub(crate) struct Known {
    pub denied: Vec<Denied>,
    pub asked: Vec<Lit>,
}

impl Known {
    /// Nothing yet.
    pub(crate) fn new(alloc: Global) -> Known
        ensures { result.denied.items ≡ [] }
    {
        Known {
            denied: Vec::new(alloc),
            asked: Vec::new(alloc),
        }
    }
}

/// Whether a literal is true by these values of the variables from 1 on.
fn is_met(values: &[bool], lit: Lit) -> bool {
    match values.get(lit.var.saturating_sub(1) as usize) {
        Some(value) => *value != lit.neg,
        None => false,
    }
}

/// Whether a literal was asked for, or is true in the assignment that was found last.
fn is_settled(asker: &Asker, known: &Known, lit: Lit) -> bool {
    is_met(asker.met.as_slice(), lit) || has_lit(known.asked.as_slice(), lit)
}

/// Asks whether some assignment has a literal behind those in front.
fn ask_single(
    asking: &Asking<'_>,
    asker: &mut Asker,
    sought: &Sought<'_>,
    lit: Lit,
    known: &mut Known,
) -> Result<(), NoMemory>
    requires can { CanAsk asking.now asker.old.solver }
    requires sought { IsSought asking.now sought.now }
    requires front { AreInFront asking.now sought.now.chosen.now asker.old.front.items }
    requires own { IsOwn asking.now sought.now.prop lit }
    requires denied { AreDenied asking.now sought.now asker.old.solver.clauses known.old.denied.items }
    ensures can { CanAsk asking.now asker.new.solver }
    ensures same { asker.new.solver.clauses ≡ asker.old.solver.clauses }
    ensures front { OnOk result (AreInFront asking.now sought.now.chosen.now asker.new.front.items) }
    ensures denied { AreDenied asking.now sought.now asker.old.solver.clauses known.new.denied.items }
{
    known.asked.push(lit)?;
    let own = [lit];
    let answer = ask_with(asking, asker, &own, FEW)?;
    match answer {
        Answer::Satisfied(values) => {
            asker.met = values;
            Ok(())
        }
        Answer::Refuted(refutation) => {
            known.denied.push(Denied { lit, refutation })?;
            Ok(())
        }
        Answer::Spent { .. } => Ok(()),
    }
}

/// Asks for the literals of a refused value one by one, but for those of which something is known.
pub(crate) fn ask_each(
    asking: &Asking<'_>,
    asker: &mut Asker,
    sought: &Sought<'_>,
    own: &[Lit],
    known: &mut Known,
) -> Result<(), NoMemory>
    requires can { CanAsk asking.now asker.old.solver }
    requires sought { IsSought asking.now sought.now }
    requires front { AreInFront asking.now sought.now.chosen.now asker.old.front.items }
    requires own { AreOwn asking.now sought.now.prop own.now }
    requires denied { AreDenied asking.now sought.now asker.old.solver.clauses known.old.denied.items }
    ensures can { CanAsk asking.now asker.new.solver }
    ensures same { asker.new.solver.clauses ≡ asker.old.solver.clauses }
    ensures front { OnOk result (AreInFront asking.now sought.now.chosen.now asker.new.front.items) }
    ensures denied { AreDenied asking.now sought.now asker.old.solver.clauses known.new.denied.items }
{
    for lit in own {
        if is_settled(asker, known, *lit) {
            continue;
        }
        ask_single(asking, asker, sought, *lit, known)?;
    }
    Ok(())
}

/// The refutation of a denied literal among these.
pub(crate) fn denied_among<'a>(denied: &'a [Denied], own: &[Lit]) -> Option<&'a Refutation>
    ensures { (ks : List (List Lit)) (front : List Lit) → All (IsDenied ks front) denied.now → IfSome result (λ r. IsRefutation ks (front ++ own.now) r.now) }
{
    for one in denied {
        if has_lit(own, one.lit) {
            return Some(&one.refutation);
        }
    }
    None
}

/// Whether one of these literals is denied.
pub(crate) fn is_denied(denied: &[Denied], own: &[Lit]) -> bool
    ensures { (ks : List (List Lit)) (front : List Lit) → All (IsDenied ks front) denied.now → result ≡ true → (log : RefutationView) × IsRefutation ks (front ++ own.now) log }
{
    denied_among(denied, own).is_some()
}

/// The steps of a refutation once more.
fn copied_steps(alloc: Global, steps: &[Step]) -> Result<Vec<Step>, NoMemory>
    ensures { IfOk result (λ v. v.items ≡ steps.now) }
{
    let mut copies = Vec::new(alloc);
    for step in steps {
        let links = Vec::from_slice(alloc, step.links.as_slice())?;
        let start = step.start;
        copies.push(Step { start, links })?;
    }
    Ok(copies)
}

/// A refutation once more.
pub(crate) fn copied(alloc: Global, refutation: &Refutation) -> Result<Refutation, NoMemory>
    ensures { IfOk result (λ r. r ≡ refutation.now) }
{
    let steps = copied_steps(alloc, refutation.steps.as_slice())?;
    Ok(Refutation {
        steps,
        goal: refutation.goal,
    })
}
