// Parts, rules and productions (IEEE 1800-2017, 18.17).

ghost use Rattle.std.specs.Prelude.{◌≡◌, ◌∷◌, ◌++◌, ◌&&◌, [], nat_lt, length, map, MatchResult};
ghost use Rattle.svr_seq.specs.declared.limits.TheConstants.{SEQUENCE_LIMIT};
ghost use Rattle.svr_token.specs.Names.{names_of};
ghost use Rattle.svr_seq.specs.SeqTerm.{part_term, part_terms, rule_term, rule_terms, production_term};
ghost use Rattle.svr_seq_made.specs.Making as made;
ghost use Rattle.svr_seq_made.specs.Refusals as spec;
ghost use Rattle.svr_seq_made.specs.Refusals.{IsFirst};
ghost use Rattle.svr_seq_made.specs.Tables.{found_in};

use crate::block::acts_of;
use crate::fault::{SeqFault, keep, unless};
use crate::setting::Setting;
use sqlite_items::Items;
use std::alloc::Global;
use svr_refusal::Refusal;
use svr_seq::{Part, Production, REPEAT_LIMIT, Rule, SEQUENCE_LIMIT};
use svr_seq_text::{PartText, ProdText, RuleText};

/// Whether one more is within the limits, where all before it are.
fn has_room<T>(fits: bool, done: &Items<T>) -> bool
    ensures { result ≡ (fits && nat_lt (length done.now) SEQUENCE_LIMIT) }
{
    fits && done.len() < SEQUENCE_LIMIT
}

/// A part. `fits` tells whether it is within the limits.
fn part_of(
    alloc: Global,
    set: &Setting<'_, '_>,
    fits: bool,
    part: &PartText,
) -> Result<Part, SeqFault>
    ensures { let text = names_of set.now.names in let find = found_in set.now.places.now.entries in MatchResult result (λ p. (spec.part_refusals text find fits part.now ≡ []) × (part_term p ≡ made.part_made text find part.now)) (λ e. IsFirst e (spec.part_refusals text find fits part.now)) }
{
    match part {
        PartText::Name(name) => {
            let prod = set.known(*name)?;
            unless(fits, Refusal::SequenceTooLarge, *name)?;
            Ok(Part::Expand { prod, times: 1 })
        }
        PartText::Repeat { at, count, name } => {
            unless(fits, Refusal::SequenceTooLarge, *at)?;
            let times = set.value(*count);
            unless(times <= REPEAT_LIMIT, Refusal::SequenceTooLarge, *count)?;
            let prod = set.known(*name)?;
            Ok(Part::Expand { prod, times })
        }
        PartText::Block { at, acts } => {
            unless(fits, Refusal::SequenceTooLarge, *at)?;
            Ok(Part::Block(acts_of(alloc, set, acts.as_slice())?))
        }
    }
}

fn parts_of(
    alloc: Global,
    set: &Setting<'_, '_>,
    fits: bool,
    parts: &[PartText],
) -> Result<Items<Part>, SeqFault>
    ensures { let text = names_of set.now.names in let find = found_in set.now.places.now.entries in MatchResult result (λ ps. (spec.parts_refusals text find fits 0 parts.now ≡ []) × (part_terms ps ≡ map (made.part_made text find) parts.now)) (λ e. IsFirst e (spec.parts_refusals text find fits 0 parts.now)) }
{
    let mut done = Items::new(alloc);
    let mut left = parts;
    'parts: while let Some((part, others)) = left.split_first() {
        let one = part_of(alloc, set, has_room(fits, &done), part)?;
        keep(&mut done, one)?;
        left = others;
    }
    Ok(done)
}

/// A rule. `fits` tells whether it is within the limits.
fn rule_of(
    alloc: Global,
    set: &Setting<'_, '_>,
    fits: bool,
    rule: &RuleText,
) -> Result<Rule, SeqFault>
    ensures { let text = names_of set.now.names in let find = found_in set.now.places.now.entries in MatchResult result (λ r. (spec.parts_refusals text find fits 0 rule.now.parts ≡ []) × (rule_term r ≡ made.rule_made text find rule.now)) (λ e. IsFirst e (spec.parts_refusals text find fits 0 rule.now.parts)) }
{
    let parts = parts_of(alloc, set, fits, rule.parts.as_slice())?;
    let weight = set.weight(rule.weight);
    Ok(Rule { parts, weight })
}

fn rules_of(
    alloc: Global,
    set: &Setting<'_, '_>,
    rules: &[RuleText],
) -> Result<Items<Rule>, SeqFault>
    ensures { let text = names_of set.now.names in let find = found_in set.now.places.now.entries in MatchResult result (λ rs. (spec.rules_refusals text find 0 rules.now ≡ []) × (rule_terms rs ≡ map (made.rule_made text find) rules.now)) (λ e. IsFirst e (spec.rules_refusals text find 0 rules.now)) }
{
    let mut done = Items::new(alloc);
    let mut left = rules;
    'rules: while let Some((rule, others)) = left.split_first() {
        let one = rule_of(alloc, set, has_room(true, &done), rule)?;
        keep(&mut done, one)?;
        left = others;
    }
    Ok(done)
}

/// The production at a place.
fn prod_of(
    alloc: Global,
    set: &Setting<'_, '_>,
    at: usize,
    prod: &ProdText,
) -> Result<Production, SeqFault>
    ensures { let text = names_of set.now.names in let find = found_in set.now.places.now.entries in MatchResult result (λ p. (spec.prod_refusals text find at prod.now ≡ []) × (production_term p ≡ made.prod_made text find prod.now)) (λ e. IsFirst e (spec.prod_refusals text find at prod.now)) }
{
    set.head(at, prod)?;
    let rules = rules_of(alloc, set, prod.rules.as_slice())?;
    let name = prod.name;
    Ok(Production { name, rules })
}

/// The productions.
///
/// Errors: the first refusal.
pub(crate) fn prods_of(
    alloc: Global,
    set: &Setting<'_, '_>,
    prods: &[ProdText],
) -> Result<Items<Production>, SeqFault>
    ensures { let text = names_of set.now.names in let find = found_in set.now.places.now.entries in MatchResult result (λ ps. (spec.prods_refusals text find 0 prods.now ≡ []) × (map production_term ps ≡ map (made.prod_made text find) prods.now)) (λ e. IsFirst e (spec.prods_refusals text find 0 prods.now)) }
{
    let mut done = Items::new(alloc);
    let mut left = prods;
    'prods: while let Some((prod, others)) = left.split_first() {
        let one = prod_of(alloc, set, done.len(), prod)?;
        keep(&mut done, one)?;
        left = others;
    }
    Ok(done)
}
