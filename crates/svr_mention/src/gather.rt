// What expressions mention in a phase.

ghost use Rattle.std.specs.Prelude.{◌≡◌, ◌<◌, ◌+◌, ◌^◌, ◌≤◌, ◌++◌, ◌∷◌, ◌||◌, if◌then◌else◌, [], pos, ◌≤ℤ◌, OnOk, length, map};
ghost use Rattle.svr_limits.specs.declared.limit.TheConstants.{LOOP_LIMIT};
ghost use Rattle.svr_typed.specs.ExprTerm.{expr_term, expr_terms, range_term, range_terms, bound_term};
ghost use Rattle.svr_eval.specs.Reading.{reading_of};
ghost use Rattle.svr_eval.specs.Typed.{IsTyped, AreTyped, RangesAreTyped, RangeIsTyped, BoundIsTyped, CanRead, AllCanRead, RangesCanRead, RangeCanRead, BoundCanRead};
ghost use Rattle.svr_frame.specs.Reads as spec;
ghost use Rattle.svr_eval.specs.Value.{index_read};
ghost use Rattle.svr_frame.specs.Occurrences.{each_below};
ghost use Rattle.svr_mention.specs.Mentioned.{shape_in, opens, cell_spot, mention_in, reads_in, all_reads_in, ranges_read_in, range_reads_in, bound_reads_in};

use crate::mention::{Mention, Spot};
use crate::setting::Setting;
use sqlite_items::Items;
use std::alloc::Global;
use svr_eval::{Assign, Env, value};
use svr_frame::size_at;
use svr_typed::{NoMemory, TBound, TExpr, TNode, TRange};

/// The index of an element as a whole number.
#[tactic(auto, using(crate::proofs::Indexes::signed_below))]
pub fn index_value(e: &TExpr, env: &Env, state: &Assign) -> i128
    requires typed { IsTyped (expr_term e.now) }
    requires reads { CanRead (reading_of state.now) (length env.now) (expr_term e.now) }
    ensures value { result ≡ index_read (reading_of state.now) env.now (expr_term e.now) }
    ensures below { result ≤ℤ pos (2 ^ 64) }
{
    let index = value(e, state, env);
    let number = index.value();
    if e.signed {
        index.signed()
    } else {
        i128::from(number)
    }
}

/// The mention of a property as a whole.
fn whole_mention(prop: u32, set: &Setting<'_>) -> Mention
    ensures { result ≡ mention_in set.now (if (shape_in set.now).is_array prop then spec.of_elements prop else spec.of_scalar prop) }
{
    if set.is_array(prop) {
        Mention::Elements(prop)
    } else {
        Mention::Scalar(prop)
    }
}

fn add_one(mention: Mention, out: &mut Items<Mention>) -> Result<(), NoMemory>
    ensures { OnOk result (out.new ≡ out.old ++ mention ∷ []) }
{
    out.push(mention)?;
    Ok(())
}

/// Adds what an expression mentions.
#[cycle(gather)]
pub fn add_mentions(
    alloc: Global,
    e: &TExpr,
    env: &Env,
    set: &Setting<'_>,
    out: &mut Items<Mention>,
) -> Result<(), NoMemory>
    requires typed { IsTyped (expr_term e.now) }
    requires reads { CanRead (reading_of set.now.state.now) (length env.now) (expr_term e.now) }
    ensures { OnOk result (out.new ≡ out.old ++ map (mention_in set.now) (reads_in set.now env.now (expr_term e.now))) }
{
    match &e.node {
        TNode::Number { .. } | TNode::Script(_) | TNode::Loop(_) => Ok(()),
        TNode::Prop(prop) => add_one(whole_mention(*prop, set), out),
        TNode::Cell(prop, inner, first, second) => {
            let (first, second) = (first.get(), second.get());
            add_cell(alloc, *prop, *inner, first, second, env, set, out)
        }
        TNode::Size(prop, _) => add_one(Mention::Size(*prop), out),
        TNode::Reduce(prop, _, body) => add_reduction(alloc, *prop, body.get(), env, set, out),
        TNode::Element(prop, index) => add_element(alloc, *prop, index.get(), env, set, out),
        TNode::Of(_, part) => add_mentions(alloc, part.get(), env, set, out),
        TNode::Select {
            base,
            first,
            last,
            ..
        } => {
            let (base, first) = (base.get(), first.get());
            match last {
                None => add_both(alloc, base, first, env, set, out),
                Some(last) => add_three(alloc, base, first, last.get(), env, set, out),
            }
        }
        TNode::Unary { arg, .. } | TNode::Sign { arg, .. } => {
            add_mentions(alloc, arg.get(), env, set, out)
        }
        TNode::Binary { left, right, .. } => {
            add_both(alloc, left.get(), right.get(), env, set, out)
        }
        TNode::Choice { test, yes, no } => {
            add_three(alloc, test.get(), yes.get(), no.get(), env, set, out)
        }
        TNode::Inside { left, set: members } => {
            add_test(alloc, members.as_slice(), left.get(), env, set, out)
        }
        TNode::Join { parts } => add_all_mentions(alloc, parts.as_slice(), env, set, out),
        TNode::Copies { count, parts } => {
            add_copies(alloc, parts.as_slice(), count.get(), env, set, out)
        }
    }
}

/// Adds an element, and what its index mentions.
#[cycle(gather)]
#[tactic(auto, using(crate::proofs::Appended::pushed_then))]
fn add_element(
    alloc: Global,
    prop: u32,
    index: &TExpr,
    env: &Env,
    set: &Setting<'_>,
    out: &mut Items<Mention>,
) -> Result<(), NoMemory>
    requires typed { IsTyped (expr_term index.now) }
    requires reads { CanRead (reading_of set.now.state.now) (length env.now) (expr_term index.now) }
    ensures { OnOk result (out.new ≡ out.old ++ map (mention_in set.now) (spec.of_element prop env.now (expr_term index.now) ∷ reads_in set.now env.now (expr_term index.now))) }
{
    out.push(element_mention(prop, index, env, set))?;
    add_mentions(alloc, index, env, set, out)
}

/// Adds an element at two indexes, and what these mention.
#[cycle(gather)]
#[tactic(auto, using(crate::proofs::Appended::pushed_then))]
fn add_cell(
    alloc: Global,
    prop: u32,
    inner: u32,
    first: &TExpr,
    second: &TExpr,
    env: &Env,
    set: &Setting<'_>,
    out: &mut Items<Mention>,
) -> Result<(), NoMemory>
    requires first_typed { IsTyped (expr_term first.now) }
    requires second_typed { IsTyped (expr_term second.now) }
    requires first_reads { CanRead (reading_of set.now.state.now) (length env.now) (expr_term first.now) }
    requires second_reads { CanRead (reading_of set.now.state.now) (length env.now) (expr_term second.now) }
    ensures { OnOk result (out.new ≡ out.old ++ map (mention_in set.now) (spec.of_cell prop inner env.now (expr_term first.now) (expr_term second.now) ∷ (reads_in set.now env.now (expr_term first.now) ++ reads_in set.now env.now (expr_term second.now)))) }
{
    out.push(cell_mention(prop, inner, first, second, env, set))?;
    add_both(alloc, first, second, env, set, out)
}

/// Adds what two expressions mention, one after the other.
#[cycle(gather)]
#[tactic(auto, using(crate::proofs::Appended::then))]
fn add_both(
    alloc: Global,
    first: &TExpr,
    second: &TExpr,
    env: &Env,
    set: &Setting<'_>,
    out: &mut Items<Mention>,
) -> Result<(), NoMemory>
    requires first_typed { IsTyped (expr_term first.now) }
    requires second_typed { IsTyped (expr_term second.now) }
    requires first_reads { CanRead (reading_of set.now.state.now) (length env.now) (expr_term first.now) }
    requires second_reads { CanRead (reading_of set.now.state.now) (length env.now) (expr_term second.now) }
    ensures { OnOk result (out.new ≡ out.old ++ map (mention_in set.now) (reads_in set.now env.now (expr_term first.now) ++ reads_in set.now env.now (expr_term second.now))) }
{
    add_mentions(alloc, first, env, set, out)?;
    add_mentions(alloc, second, env, set, out)
}

/// Adds what three expressions mention, one after the other.
#[cycle(gather)]
#[tactic(auto, using(crate::proofs::Appended::then))]
fn add_three(
    alloc: Global,
    first: &TExpr,
    second: &TExpr,
    third: &TExpr,
    env: &Env,
    set: &Setting<'_>,
    out: &mut Items<Mention>,
) -> Result<(), NoMemory>
    requires first_typed { IsTyped (expr_term first.now) }
    requires second_typed { IsTyped (expr_term second.now) }
    requires third_typed { IsTyped (expr_term third.now) }
    requires first_reads { CanRead (reading_of set.now.state.now) (length env.now) (expr_term first.now) }
    requires second_reads { CanRead (reading_of set.now.state.now) (length env.now) (expr_term second.now) }
    requires third_reads { CanRead (reading_of set.now.state.now) (length env.now) (expr_term third.now) }
    ensures { OnOk result (out.new ≡ out.old ++ map (mention_in set.now) (reads_in set.now env.now (expr_term first.now) ++ reads_in set.now env.now (expr_term second.now) ++ reads_in set.now env.now (expr_term third.now))) }
{
    add_mentions(alloc, first, env, set, out)?;
    add_both(alloc, second, third, env, set, out)
}

/// Adds what an expression and the members of a set mention.
#[cycle(gather)]
#[tactic(auto, using(crate::proofs::Appended::then))]
fn add_test(
    alloc: Global,
    members: &[TRange],
    left: &TExpr,
    env: &Env,
    set: &Setting<'_>,
    out: &mut Items<Mention>,
) -> Result<(), NoMemory>
    requires typed { IsTyped (expr_term left.now) }
    requires members_typed { RangesAreTyped (range_terms members.now) }
    requires reads { CanRead (reading_of set.now.state.now) (length env.now) (expr_term left.now) }
    requires members_read { RangesCanRead (reading_of set.now.state.now) (length env.now) (range_terms members.now) }
    ensures { OnOk result (out.new ≡ out.old ++ map (mention_in set.now) (reads_in set.now env.now (expr_term left.now) ++ ranges_read_in set.now env.now (range_terms members.now))) }
{
    add_mentions(alloc, left, env, set, out)?;
    add_range_mentions(alloc, members, env, set, out)
}

/// Adds what the count of a replication and its parts mention.
#[cycle(gather)]
#[tactic(auto, using(crate::proofs::Appended::then))]
fn add_copies(
    alloc: Global,
    parts: &[TExpr],
    count: &TExpr,
    env: &Env,
    set: &Setting<'_>,
    out: &mut Items<Mention>,
) -> Result<(), NoMemory>
    requires typed { IsTyped (expr_term count.now) }
    requires parts_typed { AreTyped (expr_terms parts.now) }
    requires reads { CanRead (reading_of set.now.state.now) (length env.now) (expr_term count.now) }
    requires parts_read { AllCanRead (reading_of set.now.state.now) (length env.now) (expr_terms parts.now) }
    ensures { OnOk result (out.new ≡ out.old ++ map (mention_in set.now) (reads_in set.now env.now (expr_term count.now) ++ all_reads_in set.now env.now (expr_terms parts.now))) }
{
    add_mentions(alloc, count, env, set, out)?;
    add_all_mentions(alloc, parts, env, set, out)
}

/// The mention of an element at an index.
pub fn element_mention(prop: u32, index: &TExpr, env: &Env, set: &Setting<'_>) -> Mention
    requires typed { IsTyped (expr_term index.now) }
    requires reads { CanRead (reading_of set.now.state.now) (length env.now) (expr_term index.now) }
    ensures { result ≡ mention_in set.now (spec.of_element prop env.now (expr_term index.now)) }
{
    if set.opens(index) {
        Mention::Element(prop, Spot::Anywhere)
    } else {
        Mention::Element(prop, Spot::At(index_value(index, env, set.state)))
    }
}

/// Where two indexes point in rows of `inner` elements (IEEE 1800-2017, 7.4.2).
pub fn cell_spot(inner: u32, row: i128, column: i128) -> Spot
    requires { row ≤ℤ (pos (2 ^ 64)) }
    ensures { result ≡ cell_spot inner row column }
{
    if row < 0 || column < 0 {
        Spot::Nowhere
    } else {
        spot_in_row(inner, row as u128, column as u128)
    }
}

/// Where a row and a column point, nowhere if a row has no such column.
fn spot_in_row(inner: u32, row: u128, column: u128) -> Spot
    requires { row ≤ 2 ^ 64 }
    ensures { result ≡ cell_spot inner (pos row) (pos column) }
{
    if column < u128::from(inner) {
        Spot::At((row * u128::from(inner) + column) as i128)
    } else {
        Spot::Nowhere
    }
}

/// Whether the value of one of two indexes is one of many in the phase.
fn either_opens(first: &TExpr, second: &TExpr, set: &Setting<'_>) -> bool
    ensures { result ≡ (opens set.now (expr_term first.now) || opens set.now (expr_term second.now)) }
{
    set.opens(first) || set.opens(second)
}

/// The mention of an element at two indexes.
fn cell_mention(
    prop: u32,
    inner: u32,
    first: &TExpr,
    second: &TExpr,
    env: &Env,
    set: &Setting<'_>,
) -> Mention
    requires first_typed { IsTyped (expr_term first.now) }
    requires first_reads { CanRead (reading_of set.now.state.now) (length env.now) (expr_term first.now) }
    requires second_typed { IsTyped (expr_term second.now) }
    requires second_reads { CanRead (reading_of set.now.state.now) (length env.now) (expr_term second.now) }
    ensures { result ≡ mention_in set.now (spec.of_cell prop inner env.now (expr_term first.now) (expr_term second.now)) }
{
    if either_opens(first, second, set) {
        Mention::Element(prop, Spot::Anywhere)
    } else {
        let row = index_value(first, env, set.state);
        let column = index_value(second, env, set.state);
        Mention::Element(prop, cell_spot(inner, row, column))
    }
}

/// How often the body of a reduction is read: once where the array has no element.
#[tactic(auto, using(crate::proofs::Appended::turns_most))]
fn turn_count(array: u32, set: &Setting<'_>) -> u32
    ensures { result ≡ spec.turns ((shape_in set.now).size array) }
{
    size_at(set.sizes, array).max(1)
}

/// Adds what an array reduction mentions: all elements of the array, and its body at each of them.
#[cycle(gather)]
#[tactic(auto, using(crate::proofs::Appended::pushed_then, crate::proofs::Appended::turned_more))]
fn add_reduction(
    alloc: Global,
    array: u32,
    body: &TExpr,
    env: &Env,
    set: &Setting<'_>,
    out: &mut Items<Mention>,
) -> Result<(), NoMemory>
    requires typed { IsTyped (expr_term body.now) }
    requires room { length env.now < LOOP_LIMIT }
    requires reads { CanRead (reading_of set.now.state.now) (length env.now + 1) (expr_term body.now) }
    ensures { OnOk result (out.new ≡ out.old ++ map (mention_in set.now) (spec.of_elements array ∷ each_below (spec.turns ((shape_in set.now).size array)) (λ i. reads_in set.now (env.now ++ i ∷ []) (expr_term body.now)))) }
{
    out.push(Mention::Elements(array))?;
    for i in 0..turn_count(array, set) {
        add_mentions(alloc, body, &env.inner(i), set, out)?;
    }
    Ok(())
}

#[cycle(gather)]
#[tactic(auto, using(crate::proofs::Appended::after))]
fn add_all_mentions(
    alloc: Global,
    parts: &[TExpr],
    env: &Env,
    set: &Setting<'_>,
    out: &mut Items<Mention>,
) -> Result<(), NoMemory>
    requires typed { AreTyped (expr_terms parts.now) }
    requires reads { AllCanRead (reading_of set.now.state.now) (length env.now) (expr_terms parts.now) }
    ensures { OnOk result (out.new ≡ out.old ++ map (mention_in set.now) (all_reads_in set.now env.now (expr_terms parts.now))) }
{
    for e in parts {
        add_mentions(alloc, e, env, set, out)?;
    }
    Ok(())
}

#[cycle(gather)]
#[tactic(auto, using(crate::proofs::Appended::after))]
fn add_range_mentions(
    alloc: Global,
    members: &[TRange],
    env: &Env,
    set: &Setting<'_>,
    out: &mut Items<Mention>,
) -> Result<(), NoMemory>
    requires typed { RangesAreTyped (range_terms members.now) }
    requires reads { RangesCanRead (reading_of set.now.state.now) (length env.now) (range_terms members.now) }
    ensures { OnOk result (out.new ≡ out.old ++ map (mention_in set.now) (ranges_read_in set.now env.now (range_terms members.now))) }
{
    for range in members {
        add_mentions_of_range(alloc, range, env, set, out)?;
    }
    Ok(())
}

/// Adds what a member of a set mentions.
#[cycle(gather)]
#[tactic(auto, using(crate::proofs::Appended::then))]
pub(crate) fn add_mentions_of_range(
    alloc: Global,
    range: &TRange,
    env: &Env,
    set: &Setting<'_>,
    out: &mut Items<Mention>,
) -> Result<(), NoMemory>
    requires typed { RangeIsTyped (range_term range.now) }
    requires reads { RangeCanRead (reading_of set.now.state.now) (length env.now) (range_term range.now) }
    ensures { OnOk result (out.new ≡ out.old ++ map (mention_in set.now) (range_reads_in set.now env.now (range_term range.now))) }
{
    match range {
        TRange::One(e) => add_mentions(alloc, e, env, set, out),
        TRange::Span(low, high) => {
            add_mentions_of_bound(alloc, low, env, set, out)?;
            add_mentions_of_bound(alloc, high, env, set, out)
        }
    }
}

#[cycle(gather)]
fn add_mentions_of_bound(
    alloc: Global,
    bound: &TBound,
    env: &Env,
    set: &Setting<'_>,
    out: &mut Items<Mention>,
) -> Result<(), NoMemory>
    requires typed { BoundIsTyped (bound_term bound.now) }
    requires reads { BoundCanRead (reading_of set.now.state.now) (length env.now) (bound_term bound.now) }
    ensures { OnOk result (out.new ≡ out.old ++ map (mention_in set.now) (bound_reads_in set.now env.now (bound_term bound.now))) }
{
    match bound {
        TBound::Value(e) => add_mentions(alloc, e, env, set, out),
        TBound::Dollar => Ok(()),
    }
}
