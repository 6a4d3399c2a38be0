// Expressions of statements over all objects together.

ghost use Rattle.std.specs.Prelude.{◌≡◌, IfOk};
ghost use Rattle.svr_typed.specs.ExprTerm as term;
ghost use Rattle.svr_typed.specs.ExprTerm.{expr_term, expr_terms, node_term, range_term, range_terms, bound_term};
ghost use Rattle.svr_script.specs.Numbered as spec;

use crate::memory::{both, pushed};
use sqlite_items::{Boxed, Items};
use std::alloc::Global;
use svr_flat::copy_expr;
use svr_limits::PROPERTY_LIMIT;
use svr_operator::{BinOp, Fold, UnOp};
use svr_typed::{NoMemory, TBound, TExpr, TNode, TRange};

/// The place of a property of an object among those of all; so many objects that it cannot be counted are in no memory.
fn place_of(object: u32, prop: u32) -> Result<u32, NoMemory>
    ensures { IfOk result (λ place. place ≡ spec.place_of object prop) }
{
    let place = u64::from(object) * u64::from(PROPERTY_LIMIT) + u64::from(prop);
    if place > u64::from(u32::MAX) {
        return Err(NoMemory);
    }
    Ok(place as u32)
}

/// A copy of the form of an expression.
fn copied_node(alloc: Global, e: &TExpr) -> Result<TNode, NoMemory>
    ensures { IfOk result (λ n. n ≡ e.now.node) }
{
    let copy = copy_expr(alloc, e)?;
    Ok(copy.node)
}

/// A copy in which the properties of an object, where there is one around, are numbered among those of all.
#[cycle(numbered)]
pub(crate) fn numbered(alloc: Global, e: &TExpr) -> Result<TExpr, NoMemory>
    ensures { IfOk result (λ r. expr_term r ≡ spec.numbered (expr_term e.now)) }
{
    let node = match &e.node {
        TNode::Loop(depth) => Ok(TNode::loop_index(*depth)),
        TNode::Number { value, every } => Ok(TNode::number(*value, *every)),
        TNode::Prop(prop) => Ok(TNode::prop(*prop)),
        TNode::Element(prop, index) => numbered_element(alloc, *prop, index),
        TNode::Cell(prop, inner, first, second) => {
            numbered_cell(alloc, *prop, *inner, first, second)
        }
        TNode::Size(prop, inner) => Ok(TNode::size(*prop, *inner)),
        TNode::Reduce(prop, op, body) => { numbered_reduction(alloc, *prop, *op, body) }
        TNode::Script(variable) => Ok(TNode::script(*variable)),
        TNode::Of(object, part) => numbered_part(alloc, *object, part.get()),
        TNode::Select {
            base,
            first,
            last,
            low,
        } => match last {
            None => numbered_bit(alloc, base, first, *low),
            Some(last) => numbered_bits(alloc, base, first, last, *low),
        },
        TNode::Unary { op, arg } => numbered_unary(alloc, *op, arg),
        TNode::Binary { op, left, right } => { numbered_binary(alloc, *op, left, right) }
        TNode::Choice { test, yes, no } => { numbered_choice(alloc, test, yes, no) }
        TNode::Inside { left, set } => numbered_inside(alloc, set.as_slice(), left),
        TNode::Join { parts } => numbered_join(alloc, parts.as_slice()),
        TNode::Copies { count, parts } => { numbered_copies(alloc, parts.as_slice(), count) }
        TNode::Sign { signed, arg } => numbered_sign(alloc, *signed, arg),
    };
    Ok(TExpr::new(e.width, e.signed, node?))
}

/// Such a copy of what is in a box.
#[cycle(numbered)]
fn numbered_child(alloc: Global, child: &Boxed<TExpr>) -> Result<TExpr, NoMemory>
    ensures { IfOk result (λ r. expr_term r ≡ spec.numbered (expr_term child.now)) }
{
    numbered(alloc, child.get())
}

#[cycle(numbered)]
fn numbered_element(alloc: Global, prop: u32, index: &Boxed<TExpr>) -> Result<TNode, NoMemory>
    ensures { IfOk result (λ n. node_term n ≡ term.element prop (spec.numbered (expr_term index.now))) }
{
    TNode::element(alloc, prop, numbered_child(alloc, index)?)
}

#[cycle(numbered)]
fn numbered_cell(
    alloc: Global,
    prop: u32,
    inner: u32,
    first: &Boxed<TExpr>,
    second: &Boxed<TExpr>,
) -> Result<TNode, NoMemory>
    ensures { IfOk result (λ n. node_term n ≡ term.cell prop inner (spec.numbered (expr_term first.now)) (spec.numbered (expr_term second.now))) }
{
    let (first, second) = both(numbered_child(alloc, first), numbered_child(alloc, second))?;
    TNode::cell(alloc, prop, inner, first, second)
}

#[cycle(numbered)]
fn numbered_reduction(
    alloc: Global,
    prop: u32,
    op: Fold,
    body: &Boxed<TExpr>,
) -> Result<TNode, NoMemory>
    ensures { IfOk result (λ n. node_term n ≡ term.reduce prop op (spec.numbered (expr_term body.now))) }
{
    TNode::reduce(alloc, prop, op, numbered_child(alloc, body)?)
}

/// A part of an object as one of all objects together. Parts that are none of an object stay as they are.
#[cycle(numbered)]
fn numbered_part(alloc: Global, object: u32, part: &TExpr) -> Result<TNode, NoMemory>
    ensures { IfOk result (λ n. node_term n ≡ spec.numbered_in object (expr_term part.now)) }
{
    match &part.node {
        TNode::Prop(prop) => Ok(TNode::prop(place_of(object, *prop)?)),
        TNode::Element(prop, index) => { numbered_element(alloc, place_of(object, *prop)?, index) }
        TNode::Cell(prop, inner, first, second) => numbered_cell(
            alloc,
            place_of(object, *prop)?,
            *inner,
            first,
            second,
        ),
        TNode::Size(prop, inner) => Ok(TNode::size(place_of(object, *prop)?, *inner)),
        TNode::Reduce(prop, op, body) => {
            numbered_reduction(alloc, place_of(object, *prop)?, *op, body)
        }
        TNode::Number { .. }
        | TNode::Script(_)
        | TNode::Loop(_)
        | TNode::Of(_, _)
        | TNode::Select { .. }
        | TNode::Unary { .. }
        | TNode::Binary { .. }
        | TNode::Choice { .. }
        | TNode::Inside { .. }
        | TNode::Join { .. }
        | TNode::Copies { .. }
        | TNode::Sign { .. } => copied_node(alloc, part),
    }
}

#[cycle(numbered)]
fn numbered_bit(
    alloc: Global,
    base: &Boxed<TExpr>,
    index: &Boxed<TExpr>,
    low: i64,
) -> Result<TNode, NoMemory>
    ensures { IfOk result (λ n. node_term n ≡ term.bit_select (spec.numbered (expr_term base.now)) (spec.numbered (expr_term index.now)) low) }
{
    let (base, index) = both(numbered_child(alloc, base), numbered_child(alloc, index))?;
    TNode::bit_select(alloc, base, index, low)
}

#[cycle(numbered)]
fn numbered_bits(
    alloc: Global,
    base: &Boxed<TExpr>,
    first: &Boxed<TExpr>,
    last: &Boxed<TExpr>,
    low: i64,
) -> Result<TNode, NoMemory>
    ensures { IfOk result (λ n. node_term n ≡ term.part_select (spec.numbered (expr_term base.now)) (spec.numbered (expr_term first.now)) (spec.numbered (expr_term last.now)) low) }
{
    let bounds = both(numbered_child(alloc, first), numbered_child(alloc, last));
    let (base, (first, last)) = both(numbered_child(alloc, base), bounds)?;
    TNode::part_select(alloc, base, first, last, low)
}

#[cycle(numbered)]
fn numbered_unary(alloc: Global, op: UnOp, arg: &Boxed<TExpr>) -> Result<TNode, NoMemory>
    ensures { IfOk result (λ n. node_term n ≡ term.unary op (spec.numbered (expr_term arg.now))) }
{
    TNode::unary(alloc, op, numbered_child(alloc, arg)?)
}

#[cycle(numbered)]
fn numbered_binary(
    alloc: Global,
    op: BinOp,
    left: &Boxed<TExpr>,
    right: &Boxed<TExpr>,
) -> Result<TNode, NoMemory>
    ensures { IfOk result (λ n. node_term n ≡ term.binary op (spec.numbered (expr_term left.now)) (spec.numbered (expr_term right.now))) }
{
    let (left, right) = both(numbered_child(alloc, left), numbered_child(alloc, right))?;
    TNode::binary(alloc, op, left, right)
}

#[cycle(numbered)]
fn numbered_choice(
    alloc: Global,
    test: &Boxed<TExpr>,
    yes: &Boxed<TExpr>,
    no: &Boxed<TExpr>,
) -> Result<TNode, NoMemory>
    ensures { IfOk result (λ n. node_term n ≡ term.choice (spec.numbered (expr_term test.now)) (spec.numbered (expr_term yes.now)) (spec.numbered (expr_term no.now))) }
{
    let values = both(numbered_child(alloc, yes), numbered_child(alloc, no));
    let (test, (yes, no)) = both(numbered_child(alloc, test), values)?;
    TNode::choice(alloc, test, yes, no)
}

#[cycle(numbered)]
fn numbered_inside(alloc: Global, set: &[TRange], left: &Boxed<TExpr>) -> Result<TNode, NoMemory>
    ensures { IfOk result (λ n. node_term n ≡ term.inside (spec.numbered (expr_term left.now)) (spec.numbered_ranges (range_terms set.now))) }
{
    let (left, set) = both(numbered_child(alloc, left), numbered_ranges(alloc, set))?;
    TNode::inside(alloc, left, set)
}

#[cycle(numbered)]
fn numbered_join(alloc: Global, parts: &[TExpr]) -> Result<TNode, NoMemory>
    ensures { IfOk result (λ n. node_term n ≡ term.join (spec.numbered_all (expr_terms parts.now))) }
{
    Ok(TNode::join(numbered_all(alloc, parts)?))
}

#[cycle(numbered)]
fn numbered_copies(alloc: Global, parts: &[TExpr], count: &Boxed<TExpr>) -> Result<TNode, NoMemory>
    ensures { IfOk result (λ n. node_term n ≡ term.copies (spec.numbered (expr_term count.now)) (spec.numbered_all (expr_terms parts.now))) }
{
    let (count, parts) = both(numbered_child(alloc, count), numbered_all(alloc, parts))?;
    TNode::copies(alloc, count, parts)
}

#[cycle(numbered)]
fn numbered_sign(alloc: Global, signed: bool, arg: &Boxed<TExpr>) -> Result<TNode, NoMemory>
    ensures { IfOk result (λ n. node_term n ≡ term.sign signed (spec.numbered (expr_term arg.now))) }
{
    TNode::sign(alloc, signed, numbered_child(alloc, arg)?)
}

/// A copy of a list of expressions in which properties are numbered among those of all objects.
#[cycle(numbered)]
fn numbered_all(alloc: Global, parts: &[TExpr]) -> Result<Items<TExpr>, NoMemory>
    ensures { IfOk result (λ r. expr_terms r ≡ spec.numbered_all (expr_terms parts.now)) }
{
    let mut copies = Items::new(alloc);
    for e in parts {
        copies = pushed(copies, numbered(alloc, e))?;
    }
    Ok(copies)
}

#[cycle(numbered)]
fn numbered_ranges(alloc: Global, set: &[TRange]) -> Result<Items<TRange>, NoMemory>
    ensures { IfOk result (λ r. range_terms r ≡ spec.numbered_ranges (range_terms set.now)) }
{
    let mut copies = Items::new(alloc);
    for range in set {
        copies = pushed(copies, numbered_range(alloc, range))?;
    }
    Ok(copies)
}

/// A copy of a member of a set in which properties are numbered among those of all objects.
#[cycle(numbered)]
fn numbered_range(alloc: Global, range: &TRange) -> Result<TRange, NoMemory>
    ensures { IfOk result (λ r. range_term r ≡ spec.numbered_range (range_term range.now)) }
{
    match range {
        TRange::One(e) => Ok(TRange::one(numbered(alloc, e)?)),
        TRange::Span(low, high) => {
            let (low, high) = both(numbered_bound(alloc, low), numbered_bound(alloc, high))?;
            Ok(TRange::span(low, high))
        }
    }
}

#[cycle(numbered)]
fn numbered_bound(alloc: Global, bound: &TBound) -> Result<TBound, NoMemory>
    ensures { IfOk result (λ r. bound_term r ≡ spec.numbered_bound (bound_term bound.now)) }
{
    match bound {
        TBound::Value(e) => Ok(TBound::value(numbered(alloc, e)?)),
        TBound::Dollar => Ok(TBound::dollar()),
    }
}
