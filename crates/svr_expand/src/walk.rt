// The walk over the items of a call, which finds what stands at their leaves.

ghost use Rattle.std.specs.Prelude.{◌≡◌, ◌==◌, ◌&&◌, ◌⊎◌, ◌+◌, ◌-◌, ◌≤◌, ◌++◌, ◌∷◌, ◌<◌, [], not, OnOk, length, map, option_map};
ghost use Rattle.svr_limits.specs.declared.limit.TheConstants.{LOOP_LIMIT};
ghost use Rattle.svr_typed.specs.ExprTerm.{expr_term};
ghost use Rattle.svr_typed.specs.ItemTerm.{item_term, item_terms, dist_terms};
ghost use Rattle.svr_eval.specs.Reading.{reading_of};
ghost use Rattle.svr_frame.specs.Occurrences as spec;
ghost use Rattle.svr_frame.specs.Frame.{frame_term};
ghost use Rattle.svr_frame.specs.Phases.{sought_sizes};
ghost use Rattle.svr_frame.specs.Reads.{of_size, has_free_size_in};
ghost use Rattle.svr_expand.specs.Loops.{found_within, found_in_row, found_in_loop};
ghost use Rattle.svr_mention.specs.Mentioned.{mention_in, shape_in, counts_by, fact_reads_in};
ghost use Rattle.svr_frame.specs.Occurrences.{has_index};
ghost use Rattle.svr_expand.specs.Expanded.{guards_of, place_of, over_of, findings, one_found, found_at, gone_at, looked_at, found_in, all_found_in, guards_read_in, turns_differ, disables, any_disables, targets_of, node_in, option_list, ExprIsReady, DistIsReady, GuardsAreReady, ItemIsReady, ItemsAreReady};

use crate::around::Around;
use crate::finding::Finding;
use crate::guards::guarded;
use crate::held::beside;
use crate::pairs::add_pairs;
use sqlite_items::Items;
use std::alloc::Global;
use svr_closed::{fact_expr, is_set};
use svr_eval::{Assign, Env};
use svr_frame::{Part, holds_free_size, size_at};
use svr_mention::{
    Mention, Setting, Spot, add_fact_mentions, add_mentions, cell_spot, counts, index_value,
};
use svr_typed::{NoMemory, TDistItem, TExpr, TItem, TNode};

/// Whether all tests are met in the state.
fn are_met(at: &Around<'_>, state: &Assign) -> bool
    requires { GuardsAreReady (reading_of state.now) (guards_of at.now) }
    ensures { result ≡ spec.are_met (reading_of state.now) (guards_of at.now) }
{
    match at {
        Around::Outside => true,
        Around::Within(_, others) => are_met(others, state),
        Around::Under(test, wanted, env, others) => {
            let set = is_set(test, env, state);
            (if *wanted { set } else { !set }) && are_met(others, state)
        }
    }
}

/// Adds what the tests mention.
#[tactic(auto, using(svr_mention::proofs::Appended::then))]
pub(crate) fn add_guard_mentions(
    alloc: Global,
    at: &Around<'_>,
    set: &Setting<'_>,
    out: &mut Items<Mention>,
) -> Result<(), NoMemory>
    requires { GuardsAreReady (reading_of set.now.state.now) (guards_of at.now) }
    ensures { OnOk result (out.new ≡ out.old ++ map (mention_in set.now) (guards_read_in set.now (guards_of at.now))) }
{
    match at {
        Around::Outside => Ok(()),
        Around::Within(_, others) => add_guard_mentions(alloc, others, set, out),
        Around::Under(test, _, env, others) => {
            add_mentions(alloc, test, env, set, out)?;
            add_guard_mentions(alloc, others, set, out)
        }
    }
}

/// Adds the sizes of the arrays of the loops, the innermost last.
#[tactic(auto, using(svr_mention::proofs::Appended::then))]
pub(crate) fn add_loop_mentions(
    at: &Around<'_>,
    set: &Setting<'_>,
    out: &mut Items<Mention>,
) -> Result<(), NoMemory>
    ensures { OnOk result (out.new ≡ out.old ++ map (mention_in set.now) (map of_size (over_of at.now))) }
{
    match at {
        Around::Outside => Ok(()),
        Around::Under(_, _, _, others) => add_loop_mentions(others, set, out),
        Around::Within(array, others) => {
            add_loop_mentions(others, set, out)?;
            out.push(Mention::Size(*array))?;
            Ok(())
        }
    }
}

/// Adds a hard or soft occurrence, of which `e` is the closed fact.
pub(crate) fn add_occurrence(
    alloc: Global,
    soft: bool,
    e: TExpr,
    mentions: Items<Mention>,
    at: &Around<'_>,
    out: &mut Items<Finding>,
) -> Result<(), NoMemory>
    ensures { OnOk result (findings out.new ≡ findings out.old ++ one_found soft (spec.guarded (spec.condition (guards_of at.now)) (expr_term e)) mentions ∷ []) }
{
    let e = guarded(alloc, at, e)?;
    out.push(if soft {
        Finding::Wished(e, mentions)
    } else {
        Finding::Asked(e)
    })?;
    Ok(())
}

/// Whether an occurrence with these mentions counts in the phase.
pub(crate) fn is_counted(soft: bool, env: &Env, set: &Setting<'_>, mentions: &[Mention]) -> bool
    ensures { result ≡ counts_by (frame_term set.now.frame.now) set.now.part soft (has_index env.now) mentions.now }
{
    counts(set.frame, set.part, soft, env.depth() > 0, mentions)
}

/// Adds what a plain item mentions, and the tests and the loops around it.
#[tactic(auto, using(svr_mention::proofs::Appended::then))]
fn add_plain_mentions(
    alloc: Global,
    expr: &TExpr,
    dist: &Option<Items<TDistItem>>,
    at: &Around<'_>,
    env: &Env,
    set: &Setting<'_>,
    out: &mut Items<Mention>,
) -> Result<(), NoMemory>
    requires ready { ExprIsReady (reading_of set.now.state.now) (length env.now) (expr_term expr.now) }
    requires dist_ready { DistIsReady (reading_of set.now.state.now) (length env.now) (option_map dist_terms dist.now) }
    requires place_ready { GuardsAreReady (reading_of set.now.state.now) (guards_of at.now) }
    ensures { OnOk result (out.new ≡ out.old ++ map (mention_in set.now) (fact_reads_in set.now env.now (spec.fact_of (expr_term expr.now) (option_map dist_terms dist.now)) ++ guards_read_in set.now (guards_of at.now) ++ map of_size (over_of at.now))) }
{
    add_fact_mentions(alloc, expr, dist, env, set, out)?;
    add_guard_mentions(alloc, at, set, out)?;
    add_loop_mentions(at, set, out)
}

/// Adds a plain item, where it counts in the phase.
fn add_plain(
    alloc: Global,
    soft: bool,
    expr: &TExpr,
    dist: &Option<Items<TDistItem>>,
    at: &Around<'_>,
    env: &Env,
    set: &Setting<'_>,
    out: &mut Items<Finding>,
) -> Result<(), NoMemory>
    requires ready { ExprIsReady (reading_of set.now.state.now) (length env.now) (expr_term expr.now) }
    requires dist_ready { DistIsReady (reading_of set.now.state.now) (length env.now) (option_map dist_terms dist.now) }
    requires place_ready { GuardsAreReady (reading_of set.now.state.now) (guards_of at.now) }
    ensures { OnOk result (findings out.new ≡ findings out.old ++ found_at set.now (place_of at.now env.now) soft (spec.fact_of (expr_term expr.now) (option_map dist_terms dist.now))) }
{
    let mut mentions = Items::new(alloc);
    let told = add_plain_mentions(alloc, expr, dist, at, env, set, &mut mentions);
    let (mentions, _) = beside(mentions, told)?;
    if is_counted(soft, env, set, mentions.as_slice()) {
        let e = fact_expr(alloc, expr, dist, env, set.state);
        let (mentions, e) = beside(mentions, e)?;
        add_occurrence(alloc, soft, e, mentions, at, out)
    } else {
        drop(mentions);
        Ok(())
    }
}

/// Whether a target holds a size that the phase looks for.
fn holds_sought_size(target: &TExpr, set: &Setting<'_>) -> bool
    ensures { result ≡ has_free_size_in (shape_in set.now) (sought_sizes (frame_term set.now.frame.now) set.now.part) (expr_term target.now) }
{
    holds_free_size(target, set.frame, set.part)
}

/// Whether the phase looks at a `disable soft`: that of cyclic values has no soft items, and that of sizes does not look at one in a loop, or at a target whose index holds a size that it looks for.
fn is_looked_at(target: &TExpr, at: &Around<'_>, env: &Env, set: &Setting<'_>) -> bool
    ensures { result ≡ looked_at set.now (place_of at.now env.now) (expr_term target.now) }
{
    match set.part {
        Part::Randc => false,
        Part::Sizes => env.depth() == 0 && !holds_sought_size(target, set),
        Part::All => true,
    }
}

/// The target of a `disable soft`: a property, or an element that is there.
fn target_of(target: &TExpr, env: &Env, state: &Assign) -> Option<Mention>
    requires { ExprIsReady (reading_of state.now) (length env.now) (expr_term target.now) }
    ensures { option_list result ≡ targets_of (reading_of state.now) env.now (node_in (expr_term target.now)) }
{
    match &target.node {
        TNode::Prop(prop) => Some(Mention::Scalar(*prop)),
        TNode::Element(prop, index) => {
            let index = index_value(index.get(), env, state);
            Some(Mention::Element(*prop, Spot::At(index)))
        }
        TNode::Cell(prop, inner, first, second) => {
            let row = index_value(first.get(), env, state);
            let column = index_value(second.get(), env, state);
            match cell_spot(*inner, row, column) {
                Spot::At(index) => Some(Mention::Element(*prop, Spot::At(index))),
                Spot::Anywhere | Spot::Nowhere => None,
            }
        }
        TNode::Number { .. }
        | TNode::Size(..)
        | TNode::Script(_)
        | TNode::Loop(_)
        | TNode::Reduce(..)
        | TNode::Of(..)
        | TNode::Select { .. }
        | TNode::Unary { .. }
        | TNode::Binary { .. }
        | TNode::Choice { .. }
        | TNode::Inside { .. }
        | TNode::Join { .. }
        | TNode::Copies { .. }
        | TNode::Sign { .. } => None,
    }
}

/// Adds the target of a `disable soft`, where its tests are true in the state (IEEE 1800-2017, 18.5.14.2).
fn add_disable(
    target: &TExpr,
    at: &Around<'_>,
    env: &Env,
    set: &Setting<'_>,
    out: &mut Items<Finding>,
) -> Result<(), NoMemory>
    requires ready { ExprIsReady (reading_of set.now.state.now) (length env.now) (expr_term target.now) }
    requires place_ready { GuardsAreReady (reading_of set.now.state.now) (guards_of at.now) }
    ensures { OnOk result (findings out.new ≡ findings out.old ++ gone_at set.now (place_of at.now env.now) (expr_term target.now)) }
{
    if is_looked_at(target, at, env, set) && are_met(at, set.state) {
        if let Some(mention) = target_of(target, env, set.state) {
            out.push(Finding::Gone(mention))?;
        }
    }
    Ok(())
}

/// Whether a `disable soft` stands in an item.
#[cycle(disables)]
fn has_disable(item: &TItem) -> bool
    ensures { result ≡ disables (item_term item.now) }
{
    match item {
        TItem::Plain { .. } | TItem::Unique { .. } | TItem::Solve { .. } => false,
        TItem::Implies { body, .. } | TItem::Foreach { body, .. } => have_disable(body.as_slice()),
        TItem::Branch { yes, no, .. } => {
            let met = have_disable(yes.as_slice());
            match no {
                None => met,
                Some(no) => met || have_disable(no.as_slice()),
            }
        }
        TItem::Disable { .. } => true,
    }
}

#[cycle(disables)]
fn have_disable(items: &[TItem]) -> bool
    ensures { result ≡ any_disables (item_terms items.now) }
{
    for item in items {
        if has_disable(item) {
            return true;
        }
    }
    false
}

/// Whether one turn of a loop can find what another does not: only a `disable soft` reads the state.
fn turns_differ(body: &[TItem], part: Part) -> bool
    ensures { result ≡ turns_differ part (item_terms body.now) }
{
    match part {
        Part::Randc | Part::Sizes => false,
        Part::All => have_disable(body),
    }
}

/// Adds what stands at the leaves of an item, in the order of the text.
#[cycle(walk)]
#[tactic(auto, using(crate::proofs::Joined::found_then, crate::proofs::Rows::all_rows))]
pub(crate) fn add_item(
    alloc: Global,
    item: &TItem,
    at: &Around<'_>,
    env: &Env,
    set: &Setting<'_>,
    out: &mut Items<Finding>,
) -> Result<(), NoMemory>
    requires ready { ItemIsReady (reading_of set.now.state.now) (length env.now) (item_term item.now) }
    requires place_ready { GuardsAreReady (reading_of set.now.state.now) (guards_of at.now) }
    ensures { OnOk result (findings out.new ≡ findings out.old ++ found_in set.now (place_of at.now env.now) (item_term item.now)) }
{
    match item {
        TItem::Plain { soft, expr, dist } => {
            add_plain(alloc, *soft, expr, dist, at, env, set, out)
        }
        TItem::Unique { members } => add_pairs(alloc, members.as_slice(), at, env, set, out),
        TItem::Implies { test, body } => {
            let inner = Around::Under(test, true, &*env, &*at);
            add_items(alloc, body.as_slice(), &inner, env, set, out)
        }
        TItem::Branch { test, yes, no } => {
            let inner = Around::Under(test, true, &*env, &*at);
            add_items(alloc, yes.as_slice(), &inner, env, set, out)?;
            match no {
                None => Ok(()),
                Some(body) => {
                    let inner = Around::Under(test, false, &*env, &*at);
                    add_items(alloc, body.as_slice(), &inner, env, set, out)
                }
            }
        }
        TItem::Foreach {
            array,
            inner,
            names,
            body,
        } => {
            let rows = size_at(set.sizes, *array) / *inner;
            let body = body.as_slice();
            add_loop(alloc, body, *array, *inner, *names, rows, at, env, set, out)
        }
        TItem::Disable { target } => add_disable(target, at, env, set, out),
        TItem::Solve { .. } => Ok(()),
    }
}

/// Adds what stands at the leaves of items, in the order of the text.
#[cycle(walk)]
#[tactic(auto, using(crate::proofs::Joined::found_after))]
pub(crate) fn add_items(
    alloc: Global,
    items: &[TItem],
    at: &Around<'_>,
    env: &Env,
    set: &Setting<'_>,
    out: &mut Items<Finding>,
) -> Result<(), NoMemory>
    requires ready { ItemsAreReady (reading_of set.now.state.now) (length env.now) (item_terms items.now) }
    requires place_ready { GuardsAreReady (reading_of set.now.state.now) (guards_of at.now) }
    ensures { OnOk result (findings out.new ≡ findings out.old ++ all_found_in set.now (place_of at.now env.now) (item_terms items.now)) }
{
    for item in items {
        add_item(alloc, item, at, env, set, out)?;
    }
    Ok(())
}

/// What is around the body of a loop over an array.
fn looped<'a>(array: u32, at: &'a Around<'a>) -> Around<'a>
    ensures guards { guards_of result ≡ guards_of at.now }
    ensures over { over_of result ≡ over_of at.now ++ array ∷ [] }
{
    Around::Within(array, at)
}

/// Whether a loop is over: where its turns do not differ, a turn that found nothing is the last.
fn is_over(differ: bool, before: usize, after: usize) -> bool
    ensures { result ≡ (not differ && (after == before)) }
{
    !differ && after == before
}

/// Adds what stands at the leaves of the body of a loop, for each index below `count`.
#[cycle(walk)]
fn add_turns(
    alloc: Global,
    body: &[TItem],
    array: u32,
    count: u32,
    at: &Around<'_>,
    env: &Env,
    set: &Setting<'_>,
    out: &mut Items<Finding>,
) -> Result<(), NoMemory>
    requires room { length env.now < LOOP_LIMIT }
    requires ready { ItemsAreReady (reading_of set.now.state.now) (length env.now + 1) (item_terms body.now) }
    requires place_ready { GuardsAreReady (reading_of set.now.state.now) (guards_of at.now) }
    ensures { OnOk result (findings out.new ≡ findings out.old ++ found_within set.now (place_of at.now env.now) array count (item_terms body.now)) }
{
    let differ = turns_differ(body, set.part);
    let place = looped(array, &*at);
    for i in 0..count {
        let before = out.len();
        add_items(alloc, body, &place, &env.inner(i), set, out)?;
        let after = out.len();
        if is_over(differ, before, after) {
            return Ok(());
        }
    }
    Ok(())
}

/// Adds what stands at the leaves of the body of a loop at one index of its first variable: where it has two, for each index of the second (IEEE 1800-2017, 18.5.8.1).
#[cycle(walk)]
#[tactic(auto, using(crate::proofs::Rows::one_name, crate::proofs::Rows::two_names))]
fn add_row(
    alloc: Global,
    body: &[TItem],
    array: u32,
    inner: u32,
    names: u8,
    at: &Around<'_>,
    env: &Env,
    set: &Setting<'_>,
    out: &mut Items<Finding>,
) -> Result<(), NoMemory>
    requires names { (names ≡ 1) ⊎ (names ≡ 2) }
    requires room { length env.now + names ≤ LOOP_LIMIT + 1 }
    requires ready { ItemsAreReady (reading_of set.now.state.now) (length env.now + names - 1) (item_terms body.now) }
    requires place_ready { GuardsAreReady (reading_of set.now.state.now) (guards_of at.now) }
    ensures { OnOk result (findings out.new ≡ findings out.old ++ found_in_row set.now (place_of at.now env.now) array inner names (item_terms body.now)) }
{
    if names != 2 {
        return add_items(alloc, body, at, env, set, out);
    }
    add_turns(alloc, body, array, inner, at, env, set, out)
}

/// Adds what stands at the leaves of the body of a loop, row by row.
#[cycle(walk)]
fn add_loop(
    alloc: Global,
    body: &[TItem],
    array: u32,
    inner: u32,
    names: u8,
    rows: u32,
    at: &Around<'_>,
    env: &Env,
    set: &Setting<'_>,
    out: &mut Items<Finding>,
) -> Result<(), NoMemory>
    requires names { (names ≡ 1) ⊎ (names ≡ 2) }
    requires room { length env.now + names ≤ LOOP_LIMIT }
    requires ready { ItemsAreReady (reading_of set.now.state.now) (length env.now + names) (item_terms body.now) }
    requires place_ready { GuardsAreReady (reading_of set.now.state.now) (guards_of at.now) }
    ensures { OnOk result (findings out.new ≡ findings out.old ++ found_in_loop set.now (place_of at.now env.now) array inner names rows (item_terms body.now)) }
{
    let differ = turns_differ(body, set.part);
    let place = looped(array, &*at);
    for i in 0..rows {
        let before = out.len();
        add_row(
            alloc,
            body,
            array,
            inner,
            names,
            &place,
            &env.inner(i),
            set,
            out,
        )?;
        let after = out.len();
        if is_over(differ, before, after) {
            return Ok(());
        }
    }
    Ok(())
}
