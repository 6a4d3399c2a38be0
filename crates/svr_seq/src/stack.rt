// What is still to do of a line, on a stack whose last piece comes first.

ghost use Rattle.std.specs.Prelude.{◌≡◌, ◌<◌, ◌+◌, ◌++◌, [], IfOk, OnOk, IfNone, map, replicate};
ghost use Rattle.svr_seq.specs.SeqTerm.{block, act_terms, part_term, part_terms};
ghost use Rattle.svr_seq.specs.Line.{expansion, statement, part_tasks, parts_tasks};
ghost use Rattle.svr_seq.specs.Stack as spec;
ghost use Rattle.svr_seq.specs.Stack.{tasks_found, work_tasks, tasks_on, work_size, stack_size};

use crate::tree::{Act, Part};
use sqlite_items::Items;
use svr_typed::NoMemory;

/// A piece of work.
#[derive(Clone, Copy)]
pub(crate) enum Work<'s> {
    /// To expand a production so many times.
    Repeat(u32, u32),
    /// The parts of a rule, from left to right.
    Parts(&'s [Part]),
    /// The statements of a code block, in their order.
    Acts(&'s [Act]),
    /// The statement of a branch.
    One(&'s Act),
}

/// What costs a unit: to expand the production at a place, or to perform a statement.
#[derive(Clone, Copy)]
pub(crate) enum Job<'s> {
    Expand(u32),
    Perform(&'s Act),
}

fn work_of(part: &Part) -> Work<'_>
    ensures tasks { work_tasks result ≡ part_tasks (part_term part.now) }
    ensures size { work_size result ≡ 1 }
{
    match part {
        Part::Expand { prod, times } => Work::Repeat(*prod, *times),
        Part::Block(acts) => Work::Acts(acts.as_slice()),
    }
}

/// Takes one expansion off so many, and puts the others back.
fn next_expansion<'s>(
    prod: u32,
    times: u32,
    stack: &mut Items<Work<'s>>,
) -> Result<Option<Job<'s>>, NoMemory>
    ensures tasks { IfOk result (λ found. replicate times (expansion prod) ++ tasks_on stack.old ≡ tasks_found found ++ tasks_on stack.new) }
    ensures size { IfOk result (λ found. IfNone found (stack_size stack.new < 1 + stack_size stack.old)) }
{
    if times == 0 {
        return Ok(None);
    }
    stack.push(Work::Repeat(prod, times - 1))?;
    Ok(Some(Job::Expand(prod)))
}

/// Takes the first statement off some, and puts the others back.
fn next_act<'s>(acts: &'s [Act], stack: &mut Items<Work<'s>>) -> Result<Option<Job<'s>>, NoMemory>
    ensures tasks { IfOk result (λ found. map statement (act_terms acts.now) ++ tasks_on stack.old ≡ tasks_found found ++ tasks_on stack.new) }
    ensures size { IfOk result (λ found. IfNone found (stack_size stack.new < 1 + stack_size stack.old)) }
{
    match acts {
        [] => Ok(None),
        [act, rest @ ..] => {
            stack.push(Work::Acts(rest))?;
            Ok(Some(Job::Perform(act)))
        }
    }
}

/// Whether a code block has no statement.
fn is_bare(acts: &[Act]) -> bool
    ensures { result ≡ spec.is_idle (block (act_terms acts.now)) }
{
    acts.is_empty()
}

/// Whether there is nothing to do for a part.
fn is_idle(part: &Part) -> bool
    ensures { result ≡ spec.is_idle (part_term part.now) }
{
    match part {
        Part::Expand { times, .. } => *times == 0,
        Part::Block(acts) => is_bare(acts.as_slice()),
    }
}

/// Puts the first of some parts for which there is something to do on the stack, above those behind it.
fn open_parts<'s>(parts: &'s [Part], stack: &mut Items<Work<'s>>) -> Result<(), NoMemory>
    ensures tasks { OnOk result (tasks_on stack.new ≡ parts_tasks (part_terms parts.now) ++ tasks_on stack.old) }
    ensures size { OnOk result (stack_size stack.new < work_size (Work.Parts parts.entry) + stack_size stack.old) }
{
    let mut left = parts;
    while let [part, rest @ ..] = left {
        if !is_idle(part) {
            stack.push(Work::Parts(rest))?;
            stack.push(work_of(part))?;
            return Ok(());
        }
        left = rest;
    }
    Ok(())
}

/// The first job of a piece of work, which was taken off the stack. What is left of the work goes back.
fn take_apart<'s>(work: Work<'s>, stack: &mut Items<Work<'s>>) -> Result<Option<Job<'s>>, NoMemory>
    ensures tasks { IfOk result (λ found. work_tasks work.entry ++ tasks_on stack.old ≡ tasks_found found ++ tasks_on stack.new) }
    ensures size { IfOk result (λ found. IfNone found (stack_size stack.new < work_size work.entry + stack_size stack.old)) }
{
    match work {
        Work::Repeat(prod, times) => next_expansion(prod, times, stack),
        Work::Parts(parts) => {
            open_parts(parts, stack)?;
            Ok(None)
        }
        Work::Acts(acts) => next_act(acts, stack),
        Work::One(act) => Ok(Some(Job::Perform(act))),
    }
}

/// Takes the next job off the stack.
pub(crate) fn next_job<'s>(stack: &mut Items<Work<'s>>) -> Result<Option<Job<'s>>, NoMemory>
    ensures tasks { IfOk result (λ found. tasks_on stack.old ≡ tasks_found found ++ tasks_on stack.new) }
    ensures none { IfOk result (λ found. IfNone found (stack.new ≡ [])) }
{
    while let Some(work) = stack.pop() {
        match take_apart(work, stack)? {
            None => {}
            Some(job) => return Ok(Some(job)),
        }
    }
    Ok(None)
}
