// The line that a `randsequence` prints (IEEE 1800-2017, 18.16 and 18.17).

ghost use Rattle.std.specs.Prelude.{◌≡◌, ◌++◌, IfOk, OnOk, map};
ghost use Rattle.std.specs.Option.{option_to_list};
ghost use Rattle.svr_draw.specs.Words.{word_of, after};
ghost use Rattle.svr_seq.specs.SeqTerm.{seq_term, branch_terms, rule_terms};
ghost use Rattle.svr_seq.specs.Sound.{IsSound};
ghost use Rattle.svr_seq.specs.Line as spec;
ghost use Rattle.svr_seq.specs.Derives.{IsDerived};
ghost use Rattle.svr_seq.specs.Stack.{task_of, tasks_on};

use crate::limits::UNIT_LIMIT;
use crate::stack::{Job, Work, next_job};
use crate::tree::{Act, Branch, Rule, Seq};
use crate::weights::{drawn_branch, drawn_rule};
use sqlite_items::Items;
use std::alloc::Global;
use svr_draw::Draws;
use svr_typed::NoMemory;

/// How a line ends.
#[derive(Drop)]
pub enum SeqEnd {
    /// With these names, by the numbers of their tokens.
    Names(Items<u32>),
    /// It would need too many units.
    Limit,
}

/// The rules of the production at a place.
fn rules_of(seq: &Seq, prod: u32) -> &[Rule]
    ensures { rule_terms result.now ≡ spec.rules_of (seq_term seq.now) prod }
{
    match seq.prods.get(prod as usize) {
        Some(production) => production.rules.as_slice(),
        None => &[],
    }
}

/// Puts the parts of a rule of the production in its place.
fn expand<'s>(
    seq: &'s Seq,
    prod: u32,
    draws: &mut Draws,
    stack: &mut Items<Work<'s>>,
) -> Result<(), NoMemory>
    ensures tasks { OnOk result (tasks_on stack.new ≡ spec.tasks_under (seq_term seq.now) (word_of draws.old 0) (spec.expansion prod) ++ tasks_on stack.old) }
    ensures words { OnOk result (draws.new ≡ after (spec.words_for (seq_term seq.now) (spec.expansion prod)) draws.old) }
{
    let parts = drawn_rule(rules_of(seq, prod), draws);
    stack.push(Work::Parts(parts))?;
    Ok(())
}

/// Puts the statement of a branch in the place of a `randcase`.
fn enter<'s>(
    branches: &'s [Branch],
    draws: &mut Draws,
    stack: &mut Items<Work<'s>>,
) -> Result<(), NoMemory>
    ensures tasks { OnOk result (tasks_on stack.new ≡ map spec.statement (option_to_list (spec.branch_under (word_of draws.old 0) (branch_terms branches.now))) ++ tasks_on stack.old) }
    ensures words { OnOk result (draws.new ≡ after (spec.branch_words (branch_terms branches.now)) draws.old) }
{
    if let Some(act) = drawn_branch(branches, draws) {
        stack.push(Work::One(act))?;
    }
    Ok(())
}

/// Does one job.
fn perform<'s>(
    job: Job<'s>,
    seq: &'s Seq,
    draws: &mut Draws,
    stack: &mut Items<Work<'s>>,
    names: &mut Items<u32>,
) -> Result<(), NoMemory>
    ensures tasks { OnOk result (tasks_on stack.new ≡ spec.tasks_under (seq_term seq.now) (word_of draws.old 0) (task_of job.entry) ++ tasks_on stack.old) }
    ensures names { OnOk result (names.new ≡ names.old ++ spec.printed (task_of job.entry)) }
    ensures words { OnOk result (draws.new ≡ after (spec.words_for (seq_term seq.now) (task_of job.entry)) draws.old) }
{
    match job {
        Job::Expand(prod) => expand(seq, prod, draws, stack)?,
        Job::Perform(Act::Print(name)) => names.push(*name)?,
        Job::Perform(Act::Choose(branches)) => enter(branches.as_slice(), draws, stack)?,
    }
    Ok(())
}

/// The line with so many units.
fn line_within(alloc: Global, units: u32, seq: &Seq, draws: &mut Draws) -> Result<SeqEnd, NoMemory>
    ensures line { IfOk result (λ end. end ≡ (spec.line_within (seq_term seq.now) units draws.old).end) }
    ensures words { OnOk result (draws.new ≡ (spec.line_within (seq_term seq.now) units draws.old).words) }
{
    let mut stack = Items::new(alloc);
    stack.push(Work::Repeat(seq.start, 1))?;
    let mut names = Items::new(alloc);
    for _unit in 0..units {
        match next_job(&mut stack)? {
            None => return Ok(SeqEnd::Names(names)),
            Some(job) => perform(job, seq, draws, &mut stack, &mut names)?,
        }
    }
    match next_job(&mut stack)? {
        None => Ok(SeqEnd::Names(names)),
        Some(_) => Ok(SeqEnd::Limit),
    }
}

/// The line that a `randsequence` prints under these words, which stand behind those that it took when it is made. Where the tree is sound, its names are such that the start derives them.
pub fn derive(alloc: Global, seq: &Seq, draws: &mut Draws) -> Result<SeqEnd, NoMemory>
    ensures line { IfOk result (λ end. end ≡ (spec.line_of (seq_term seq.now) draws.old).end) }
    ensures words { OnOk result (draws.new ≡ (spec.line_of (seq_term seq.now) draws.old).words) }
    ensures derived { IfOk result (λ end. IsSound (seq_term seq.now) → IsDerived (seq_term seq.now) end) }
{
    line_within(alloc, UNIT_LIMIT, seq, draws)
}
