// What a phase asks and wishes, of what the walk found.

ghost use Rattle.std.specs.Prelude.{◌≡◌, ◌++◌, IfOk, OnOk, map, reverse, slice_index};
ghost use Rattle.svr_typed.specs.ExprTerm.{expr_term};
ghost use Rattle.svr_expand.specs.Expanded.{wished, finding_term, findings, asked_one, asked_exprs, wished_exprs};
ghost use Rattle.svr_expand.specs.Targeted.{AddsFound, wished_of};

use crate::finding::Finding;
use crate::targets::Targets;
use sqlite_items::Items;
use std::alloc::Global;
use svr_mention::Mention;
use svr_typed::{NoMemory, TExpr};

/// The items of a phase as closed expressions.
#[derive(Drop)]
pub struct Expansion {
    /// those that have to hold
    pub hard: Items<TExpr>,
    /// the live soft ones, from the highest priority down (IEEE 1800-2017, 18.5.14.1)
    pub soft: Items<TExpr>,
}

/// A list from its end to its front.
#[tactic(auto, using(crate::proofs::Turned::turned))]
fn reversed(alloc: Global, exprs: Items<TExpr>) -> Result<Items<TExpr>, NoMemory>
    ensures { IfOk result (λ r. map expr_term r ≡ reverse (map expr_term exprs)) }
{
    let mut left = exprs;
    let mut turned = Items::new(alloc);
    while let Some(e) = left.pop() {
        turned.push(e)?;
    }
    Ok(turned)
}

/// Adds a soft expression, unless a target behind it is mentioned.
fn keep(
    e: TExpr,
    mentions: Items<Mention>,
    targets: &Targets,
    soft: &mut Items<TExpr>,
) -> Result<(), NoMemory>
    ensures { OnOk result (map expr_term soft.new ≡ map expr_term soft.old ++ wished_of targets.now (wished (expr_term e) mentions)) }
{
    let gone = targets.removes(mentions.as_slice());
    drop(mentions);
    if gone {
        drop(e);
    } else {
        soft.push(e)?;
    }
    Ok(())
}

/// Takes one finding from the end of the list: a hard one, a soft one that no target behind it removes, or a target (IEEE 1800-2017, 18.5.14.2).
fn sort_one(
    finding: Finding,
    sizes: &[u32],
    hard: &mut Items<TExpr>,
    soft: &mut Items<TExpr>,
    targets: &mut Targets,
) -> Result<(), NoMemory>
    ensures hard { OnOk result (map expr_term hard.new ≡ map expr_term hard.old ++ asked_one (finding_term finding)) }
    ensures soft { OnOk result (map expr_term soft.new ≡ map expr_term soft.old ++ wished_of targets.old (finding_term finding)) }
    ensures targets { OnOk result (AddsFound (λ p. slice_index sizes.now p) targets.old targets.new (finding_term finding)) }
{
    match finding {
        Finding::Asked(e) => hard.push(e)?,
        Finding::Gone(target) => targets.add(target, sizes)?,
        Finding::Wished(e, mentions) => keep(e, mentions, &*targets, soft)?,
    }
    Ok(())
}

/// The hard occurrences in the order of the text; the live soft ones from the last to the first, without those that a later `disable soft` removes (IEEE 1800-2017, 18.5.14.2).
pub(crate) fn sorted(
    alloc: Global,
    found: Items<Finding>,
    sizes: &[u32],
) -> Result<Expansion, NoMemory>
    ensures hard { IfOk result (λ x. map expr_term x.hard ≡ asked_exprs (findings found)) }
    ensures soft { IfOk result (λ x. map expr_term x.soft ≡ wished_exprs (λ p. slice_index sizes.now p) (findings found)) }
{
    let mut left = found;
    let mut hard = Items::new(alloc);
    let mut soft = Items::new(alloc);
    let mut targets = Targets::new(alloc);
    while let Some(finding) = left.pop() {
        sort_one(finding, sizes, &mut hard, &mut soft, &mut targets)?;
    }
    Ok(Expansion {
        hard: reversed(alloc, hard)?,
        soft,
    })
}
