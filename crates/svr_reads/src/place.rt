// Which element of an array an expression mentions, where all sizes are known.

ghost use Rattle.std.specs.Prelude.{◌≡◌, ◌<◌, ◌+◌, ◌==◌, ◌&&◌, ◌||◌, [], length, pos};
ghost use Rattle.svr_limits.specs.declared.limit.TheConstants.{LOOP_LIMIT};
ghost use Rattle.svr_typed.specs.ExprTerm.{expr_term, expr_terms, range_term, range_terms, bound_term};
ghost use Rattle.svr_typed.specs.ClassTerm.{flat_term};
ghost use Rattle.svr_eval.specs.Reading.{reading_of};
ghost use Rattle.svr_eval.specs.Value.{index_read};
ghost use Rattle.svr_eval.specs.Typed.{IsTyped, AreTyped, RangesAreTyped, RangeIsTyped, BoundIsTyped, CanRead, AllCanRead, RangesCanRead, RangeCanRead, BoundCanRead};
ghost use Rattle.svr_frame.specs.Phases.{shape_of};
ghost use Rattle.svr_frame.specs.Reads.{reads_place, of_element, of_cell, of_elements, turns, is_cell_at};
ghost use Rattle.svr_reads.specs.Placed as spec;

use crate::told::{Told, tells};
use svr_eval::{Assign, Env, value};
use svr_typed::{ArrayKind, FlatClass, Prop, TBound, TExpr, TNode, TRange};

/// An element that is looked for, and where.
#[derive(Clone, Copy)]
pub(crate) struct Sought<'a> {
    pub(crate) prop: u32,
    pub(crate) at: u32,
    pub(crate) props: &'a [Prop],
    pub(crate) state: &'a Assign,
}

/// Whether the property is an array. A number that names no property is no scalar.
fn is_array(prop: u32, set: &Sought<'_>) -> bool
    ensures { result ≡ (spec.shape set.now.props.now (reading_of set.now.state.now)).is_array prop }
{
    match set.props.get(prop as usize) {
        Some(declared) => declared.array != ArrayKind::Scalar,
        None => true,
    }
}

/// Whether all elements of an array are one.
fn covers_all(array: u32, set: &Sought<'_>) -> bool
    ensures { result ≡ spec.all_covered set.now.props.now (reading_of set.now.state.now) set.now.prop set.now.at array }
{
    set.prop == array && set.at < set.state.size(array)
}

/// The index of an element as a whole number.
fn index_value(e: &TExpr, env: &Env, state: &Assign) -> i128
    requires typed { IsTyped (expr_term e.now) }
    requires reads { CanRead (reading_of state.now) (length env.now) (expr_term e.now) }
    ensures { result ≡ index_read (reading_of state.now) env.now (expr_term e.now) }
{
    let index = value(e, state, env);
    if e.signed {
        index.signed()
    } else {
        i128::from(index.value())
    }
}

/// Whether the value of an index is one of many.
fn opens(index: &TExpr, set: &Sought<'_>) -> bool
    ensures { result ≡ spec.opens set.now.props.now (reading_of set.now.state.now) (expr_term index.now) }
{
    tells(index, &Told::Varying(set.props))
}

/// Whether an element at an index is the one.
fn covers_element(array: u32, index: &TExpr, env: &Env, set: &Sought<'_>) -> bool
    requires typed { IsTyped (expr_term index.now) }
    requires reads { CanRead (reading_of set.now.state.now) (length env.now) (expr_term index.now) }
    ensures { result ≡ spec.covered set.now.props.now (reading_of set.now.state.now) set.now.prop set.now.at (of_element array env.now (expr_term index.now)) }
{
    if set.prop != array {
        return false;
    }
    if opens(index, set) {
        return set.at < set.state.size(set.prop);
    }
    i128::from(set.at) == index_value(index, env, set.state)
}

/// Whether one of two indexes opens.
fn either_opens(first: &TExpr, second: &TExpr, set: &Sought<'_>) -> bool
    ensures { result ≡ (spec.opens set.now.props.now (reading_of set.now.state.now) (expr_term first.now) || spec.opens set.now.props.now (reading_of set.now.state.now) (expr_term second.now)) }
{
    opens(first, set) || opens(second, set)
}

/// Whether two indexes name an element of an array with rows of `inner` elements (IEEE 1800-2017, 7.4.2).
fn is_cell_at(inner: u32, row: i128, column: i128, at: u32) -> bool
    ensures { result ≡ is_cell_at inner row column (pos at) }
{
    if row < 0 || column < 0 || column >= i128::from(inner) {
        return false;
    }
    match row.checked_mul(i128::from(inner)) {
        None => false,
        Some(start) => i128::from(at) - column == start,
    }
}

/// Whether an element at two indexes is the one.
fn covers_cell(
    array: u32,
    inner: u32,
    first: &TExpr,
    second: &TExpr,
    env: &Env,
    set: &Sought<'_>,
) -> bool
    requires first_typed { IsTyped (expr_term first.now) }
    requires first_reads { CanRead (reading_of set.now.state.now) (length env.now) (expr_term first.now) }
    requires second_typed { IsTyped (expr_term second.now) }
    requires second_reads { CanRead (reading_of set.now.state.now) (length env.now) (expr_term second.now) }
    ensures { result ≡ spec.covered set.now.props.now (reading_of set.now.state.now) set.now.prop set.now.at (of_cell array inner env.now (expr_term first.now) (expr_term second.now)) }
{
    if set.prop != array {
        return false;
    }
    if either_opens(first, second, set) {
        return set.at < set.state.size(set.prop);
    }
    let row = index_value(first, env, set.state);
    is_cell_at(inner, row, index_value(second, env, set.state), set.at)
}

/// How often the body of a reduction is read: once where the array has no element.
#[tactic(auto, using(crate::proofs::Appended::turns_most))]
fn turn_count(array: u32, set: &Sought<'_>) -> u32
    ensures { result ≡ turns ((reading_of set.now.state.now).size array) }
{
    set.state.size(array).max(1)
}

/// Whether a node that is the property mentions the element: a whole array does.
fn covers_property(prop: u32, set: &Sought<'_>) -> bool
    ensures { result ≡ ((spec.shape set.now.props.now (reading_of set.now.state.now)).is_array prop && spec.all_covered set.now.props.now (reading_of set.now.state.now) set.now.prop set.now.at prop) }
{
    is_array(prop, set) && covers_all(prop, set)
}

/// Whether an expression, its indexes included, mentions the element.
#[cycle(placed)]
pub(crate) fn placed(e: &TExpr, env: &Env, set: &Sought<'_>) -> bool
    requires typed { IsTyped (expr_term e.now) }
    requires reads { CanRead (reading_of set.now.state.now) (length env.now) (expr_term e.now) }
    ensures { result ≡ spec.placed set.now.props.now (reading_of set.now.state.now) set.now.prop set.now.at env.now (expr_term e.now) }
{
    match &e.node {
        TNode::Number { .. } | TNode::Size(..) | TNode::Script(_) | TNode::Loop(_) => false,
        TNode::Prop(prop) => covers_property(*prop, set),
        TNode::Element(prop, index) => {
            covers_element(*prop, index.get(), env, set) || placed(index.get(), env, set)
        }
        TNode::Cell(prop, inner, first, second) => {
            covers_cell(*prop, *inner, first.get(), second.get(), env, set)
                || placed(first.get(), env, set)
                || placed(second.get(), env, set)
        }
        TNode::Reduce(prop, _, body) => {
            covers_all(*prop, set) || placed_in_turns(*prop, body.get(), env, set)
        }
        TNode::Of(_, part) => placed(part.get(), env, set),
        TNode::Select {
            base,
            first,
            last,
            ..
        } => {
            let front = placed(base.get(), env, set) || placed(first.get(), env, set);
            match last {
                None => front,
                Some(last) => front || placed(last.get(), env, set),
            }
        }
        TNode::Unary { arg, .. } | TNode::Sign { arg, .. } => placed(arg.get(), env, set),
        TNode::Binary { left, right, .. } => {
            placed(left.get(), env, set) || placed(right.get(), env, set)
        }
        TNode::Choice { test, yes, no } => {
            placed(test.get(), env, set)
                || placed(yes.get(), env, set)
                || placed(no.get(), env, set)
        }
        TNode::Inside { left, set: members } => {
            placed(left.get(), env, set) || placed_in_ranges(members.as_slice(), env, set)
        }
        TNode::Join { parts } => placed_in_exprs(parts.as_slice(), env, set),
        TNode::Copies { count, parts } => {
            placed(count.get(), env, set) || placed_in_exprs(parts.as_slice(), env, set)
        }
    }
}

/// Whether the body of a reduction mentions the element, at some element of the array.
#[cycle(placed)]
fn placed_in_turns(array: u32, body: &TExpr, env: &Env, set: &Sought<'_>) -> bool
    requires typed { IsTyped (expr_term body.now) }
    requires room { length env.now < LOOP_LIMIT }
    requires reads { CanRead (reading_of set.now.state.now) (length env.now + 1) (expr_term body.now) }
    ensures { result ≡ spec.placed_in_turns set.now.props.now (reading_of set.now.state.now) set.now.prop set.now.at array env.now (expr_term body.now) }
{
    for turn in 0..turn_count(array, set) {
        if placed(body, &env.inner(turn), set) {
            return true;
        }
    }
    false
}

#[cycle(placed)]
fn placed_in_exprs(parts: &[TExpr], env: &Env, set: &Sought<'_>) -> bool
    requires typed { AreTyped (expr_terms parts.now) }
    requires reads { AllCanRead (reading_of set.now.state.now) (length env.now) (expr_terms parts.now) }
    ensures { result ≡ spec.placed_in_exprs set.now.props.now (reading_of set.now.state.now) set.now.prop set.now.at env.now (expr_terms parts.now) }
{
    for part in parts {
        if placed(part, env, set) {
            return true;
        }
    }
    false
}

#[cycle(placed)]
fn placed_in_ranges(members: &[TRange], env: &Env, set: &Sought<'_>) -> bool
    requires typed { RangesAreTyped (range_terms members.now) }
    requires reads { RangesCanRead (reading_of set.now.state.now) (length env.now) (range_terms members.now) }
    ensures { result ≡ spec.placed_in_ranges set.now.props.now (reading_of set.now.state.now) set.now.prop set.now.at env.now (range_terms members.now) }
{
    for range in members {
        if placed_in_range(range, env, set) {
            return true;
        }
    }
    false
}

#[cycle(placed)]
fn placed_in_range(range: &TRange, env: &Env, set: &Sought<'_>) -> bool
    requires typed { RangeIsTyped (range_term range.now) }
    requires reads { RangeCanRead (reading_of set.now.state.now) (length env.now) (range_term range.now) }
    ensures { result ≡ spec.placed_in_range set.now.props.now (reading_of set.now.state.now) set.now.prop set.now.at env.now (range_term range.now) }
{
    match range {
        TRange::One(e) => placed(e, env, set),
        TRange::Span(low, high) => {
            placed_in_bound(low, env, set) || placed_in_bound(high, env, set)
        }
    }
}

#[cycle(placed)]
fn placed_in_bound(bound: &TBound, env: &Env, set: &Sought<'_>) -> bool
    requires typed { BoundIsTyped (bound_term bound.now) }
    requires reads { BoundCanRead (reading_of set.now.state.now) (length env.now) (bound_term bound.now) }
    ensures { result ≡ spec.placed_in_bound set.now.props.now (reading_of set.now.state.now) set.now.prop set.now.at env.now (bound_term bound.now) }
{
    match bound {
        TBound::Value(e) => placed(e, env, set),
        TBound::Dollar => false,
    }
}

/// Whether a closed expression, its indexes included, mentions the element `at` of an array, indexes being taken under `state`: one whose index is open stands for all elements of its array, as a reduction and a whole array do.
pub fn reads_at(e: &TExpr, prop: u32, at: u32, class: &FlatClass, state: &Assign) -> bool
    requires typed { IsTyped (expr_term e.now) }
    requires reads { CanRead (reading_of state.now) 0 (expr_term e.now) }
    ensures { result ≡ reads_place (shape_of (flat_term class.now).props (reading_of state.now).size) (reading_of state.now) (expr_term e.now) prop at }
{
    let set = Sought {
        prop,
        at,
        props: class.props.as_slice(),
        state,
    };
    placed(e, &Env::new(), &set)
}
