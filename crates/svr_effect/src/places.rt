// Expressions by the places, among what they name, of the properties and script variables that they name.

ghost use Rattle.std.specs.Prelude.{◌≡◌, IfOk};
ghost use Rattle.svr_typed.specs.ExprTerm as term;
ghost use Rattle.svr_typed.specs.ExprTerm.{expr_term, expr_terms, node_term, range_term, range_terms, bound_term};
ghost use Rattle.svr_effect.specs.Mentions as spec;
ghost use Rattle.svr_effect.specs.Named.{mentioned};

use crate::memory::{both, pushed};
use crate::mention::Names;
use indexmap::IndexSet;
use sqlite_items::{Boxed, Items};
use std::alloc::Global;
use svr_operator::{BinOp, Fold, UnOp};
use svr_typed::{NoMemory, TBound, TExpr, TNode, TRange};

/// The place of a number among these, which is how many they are where it is none of them.
fn place_among(numbers: &IndexSet<u32>, number: u32) -> usize
    ensures { result ≡ spec.place_among numbers.now.keys number }
{
    match numbers.get_index_of(&number) {
        Some(place) => place,
        None => numbers.len(),
    }
}

/// The place of a number among these; one that cannot be counted is in no memory.
fn place_in(numbers: &IndexSet<u32>, number: u32) -> Result<u32, NoMemory>
    ensures { IfOk result (λ place. place ≡ spec.place_among numbers.now.keys number) }
{
    let place = place_among(numbers, number);
    if place > u32::MAX as usize {
        return Err(NoMemory);
    }
    Ok(place as u32)
}

fn placed_prop(names: &Names, prop: u32) -> Result<TNode, NoMemory>
    ensures { IfOk result (λ n. node_term n ≡ term.prop (spec.place_among (mentioned names.now).props prop)) }
{
    Ok(TNode::prop(place_in(&names.props, prop)?))
}

fn placed_size(names: &Names, prop: u32, inner: u32) -> Result<TNode, NoMemory>
    ensures { IfOk result (λ n. node_term n ≡ term.size (spec.place_among (mentioned names.now).props prop) inner) }
{
    Ok(TNode::size(place_in(&names.props, prop)?, inner))
}

fn placed_variable(names: &Names, variable: u32) -> Result<TNode, NoMemory>
    ensures { IfOk result (λ n. node_term n ≡ term.script (spec.place_among (mentioned names.now).vars variable)) }
{
    Ok(TNode::script(place_in(&names.vars, variable)?))
}

/// A copy in which each property and each script variable has its place among these as its number.
#[cycle(by_places)]
pub(crate) fn by_places(alloc: Global, names: &Names, e: &TExpr) -> Result<TExpr, NoMemory>
    ensures { IfOk result (λ r. expr_term r ≡ spec.by_places (mentioned names.now) (expr_term e.now)) }
{
    let node = match &e.node {
        TNode::Loop(depth) => Ok(TNode::loop_index(*depth)),
        TNode::Number { value, every } => Ok(TNode::number(*value, *every)),
        TNode::Prop(prop) => placed_prop(names, *prop),
        TNode::Element(prop, index) => placed_element(alloc, names, *prop, index),
        TNode::Cell(prop, inner, first, second) => {
            placed_cell(alloc, names, *prop, *inner, first, second)
        }
        TNode::Size(prop, inner) => placed_size(names, *prop, *inner),
        TNode::Reduce(prop, op, body) => { placed_reduction(alloc, names, *prop, *op, body) }
        TNode::Script(variable) => placed_variable(names, *variable),
        TNode::Of(object, part) => placed_part(alloc, names, *object, part),
        TNode::Select {
            base,
            first,
            last,
            low,
        } => match last {
            None => placed_bit(alloc, names, base, first, *low),
            Some(last) => placed_bits(alloc, names, base, first, last, *low),
        },
        TNode::Unary { op, arg } => placed_unary(alloc, names, *op, arg),
        TNode::Binary { op, left, right } => { placed_binary(alloc, names, *op, left, right) }
        TNode::Choice { test, yes, no } => { placed_choice(alloc, names, test, yes, no) }
        TNode::Inside { left, set } => placed_inside(alloc, names, set.as_slice(), left),
        TNode::Join { parts } => placed_join(alloc, names, parts.as_slice()),
        TNode::Copies { count, parts } => { placed_copies(alloc, names, parts.as_slice(), count) }
        TNode::Sign { signed, arg } => placed_sign(alloc, names, *signed, arg),
    };
    Ok(TExpr::new(e.width, e.signed, node?))
}

/// Such a copy of what is in a box.
#[cycle(by_places)]
fn placed_child(alloc: Global, names: &Names, child: &Boxed<TExpr>) -> Result<TExpr, NoMemory>
    ensures { IfOk result (λ r. expr_term r ≡ spec.by_places (mentioned names.now) (expr_term child.now)) }
{
    by_places(alloc, names, child.get())
}

#[cycle(by_places)]
fn placed_element(
    alloc: Global,
    names: &Names,
    prop: u32,
    index: &Boxed<TExpr>,
) -> Result<TNode, NoMemory>
    ensures { IfOk result (λ n. node_term n ≡ term.element (spec.place_among (mentioned names.now).props prop) (spec.by_places (mentioned names.now) (expr_term index.now))) }
{
    let place = place_in(&names.props, prop)?;
    TNode::element(alloc, place, placed_child(alloc, names, index)?)
}

#[cycle(by_places)]
fn placed_cell(
    alloc: Global,
    names: &Names,
    prop: u32,
    inner: u32,
    first: &Boxed<TExpr>,
    second: &Boxed<TExpr>,
) -> Result<TNode, NoMemory>
    ensures { IfOk result (λ n. node_term n ≡ term.cell (spec.place_among (mentioned names.now).props prop) inner (spec.by_places (mentioned names.now) (expr_term first.now)) (spec.by_places (mentioned names.now) (expr_term second.now))) }
{
    let place = place_in(&names.props, prop)?;
    let (first, second) = both(
        placed_child(alloc, names, first),
        placed_child(alloc, names, second),
    )?;
    TNode::cell(alloc, place, inner, first, second)
}

#[cycle(by_places)]
fn placed_reduction(
    alloc: Global,
    names: &Names,
    prop: u32,
    op: Fold,
    body: &Boxed<TExpr>,
) -> Result<TNode, NoMemory>
    ensures { IfOk result (λ n. node_term n ≡ term.reduce (spec.place_among (mentioned names.now).props prop) op (spec.by_places (mentioned names.now) (expr_term body.now))) }
{
    let place = place_in(&names.props, prop)?;
    TNode::reduce(alloc, place, op, placed_child(alloc, names, body)?)
}

#[cycle(by_places)]
fn placed_part(
    alloc: Global,
    names: &Names,
    object: u32,
    part: &Boxed<TExpr>,
) -> Result<TNode, NoMemory>
    ensures { IfOk result (λ n. node_term n ≡ term.of_object object (spec.by_places (mentioned names.now) (expr_term part.now))) }
{
    TNode::of_object(alloc, object, placed_child(alloc, names, part)?)
}

#[cycle(by_places)]
fn placed_bit(
    alloc: Global,
    names: &Names,
    base: &Boxed<TExpr>,
    index: &Boxed<TExpr>,
    low: i64,
) -> Result<TNode, NoMemory>
    ensures { IfOk result (λ n. node_term n ≡ term.bit_select (spec.by_places (mentioned names.now) (expr_term base.now)) (spec.by_places (mentioned names.now) (expr_term index.now)) low) }
{
    let (base, index) = both(
        placed_child(alloc, names, base),
        placed_child(alloc, names, index),
    )?;
    TNode::bit_select(alloc, base, index, low)
}

#[cycle(by_places)]
fn placed_bits(
    alloc: Global,
    names: &Names,
    base: &Boxed<TExpr>,
    first: &Boxed<TExpr>,
    last: &Boxed<TExpr>,
    low: i64,
) -> Result<TNode, NoMemory>
    ensures { IfOk result (λ n. node_term n ≡ term.part_select (spec.by_places (mentioned names.now) (expr_term base.now)) (spec.by_places (mentioned names.now) (expr_term first.now)) (spec.by_places (mentioned names.now) (expr_term last.now)) low) }
{
    let bounds = both(
        placed_child(alloc, names, first),
        placed_child(alloc, names, last),
    );
    let (base, (first, last)) = both(placed_child(alloc, names, base), bounds)?;
    TNode::part_select(alloc, base, first, last, low)
}

#[cycle(by_places)]
fn placed_unary(
    alloc: Global,
    names: &Names,
    op: UnOp,
    arg: &Boxed<TExpr>,
) -> Result<TNode, NoMemory>
    ensures { IfOk result (λ n. node_term n ≡ term.unary op (spec.by_places (mentioned names.now) (expr_term arg.now))) }
{
    TNode::unary(alloc, op, placed_child(alloc, names, arg)?)
}

#[cycle(by_places)]
fn placed_binary(
    alloc: Global,
    names: &Names,
    op: BinOp,
    left: &Boxed<TExpr>,
    right: &Boxed<TExpr>,
) -> Result<TNode, NoMemory>
    ensures { IfOk result (λ n. node_term n ≡ term.binary op (spec.by_places (mentioned names.now) (expr_term left.now)) (spec.by_places (mentioned names.now) (expr_term right.now))) }
{
    let (left, right) = both(
        placed_child(alloc, names, left),
        placed_child(alloc, names, right),
    )?;
    TNode::binary(alloc, op, left, right)
}

#[cycle(by_places)]
fn placed_choice(
    alloc: Global,
    names: &Names,
    test: &Boxed<TExpr>,
    yes: &Boxed<TExpr>,
    no: &Boxed<TExpr>,
) -> Result<TNode, NoMemory>
    ensures { IfOk result (λ n. node_term n ≡ term.choice (spec.by_places (mentioned names.now) (expr_term test.now)) (spec.by_places (mentioned names.now) (expr_term yes.now)) (spec.by_places (mentioned names.now) (expr_term no.now))) }
{
    let values = both(
        placed_child(alloc, names, yes),
        placed_child(alloc, names, no),
    );
    let (test, (yes, no)) = both(placed_child(alloc, names, test), values)?;
    TNode::choice(alloc, test, yes, no)
}

#[cycle(by_places)]
fn placed_inside(
    alloc: Global,
    names: &Names,
    set: &[TRange],
    left: &Boxed<TExpr>,
) -> Result<TNode, NoMemory>
    ensures { IfOk result (λ n. node_term n ≡ term.inside (spec.by_places (mentioned names.now) (expr_term left.now)) (spec.ranges_by_places (mentioned names.now) (range_terms set.now))) }
{
    let (left, set) = both(
        placed_child(alloc, names, left),
        placed_ranges(alloc, names, set),
    )?;
    TNode::inside(alloc, left, set)
}

#[cycle(by_places)]
fn placed_join(alloc: Global, names: &Names, parts: &[TExpr]) -> Result<TNode, NoMemory>
    ensures { IfOk result (λ n. node_term n ≡ term.join (spec.all_by_places (mentioned names.now) (expr_terms parts.now))) }
{
    Ok(TNode::join(placed_all(alloc, names, parts)?))
}

#[cycle(by_places)]
fn placed_copies(
    alloc: Global,
    names: &Names,
    parts: &[TExpr],
    count: &Boxed<TExpr>,
) -> Result<TNode, NoMemory>
    ensures { IfOk result (λ n. node_term n ≡ term.copies (spec.by_places (mentioned names.now) (expr_term count.now)) (spec.all_by_places (mentioned names.now) (expr_terms parts.now))) }
{
    let (count, parts) = both(
        placed_child(alloc, names, count),
        placed_all(alloc, names, parts),
    )?;
    TNode::copies(alloc, count, parts)
}

#[cycle(by_places)]
fn placed_sign(
    alloc: Global,
    names: &Names,
    signed: bool,
    arg: &Boxed<TExpr>,
) -> Result<TNode, NoMemory>
    ensures { IfOk result (λ n. node_term n ≡ term.sign signed (spec.by_places (mentioned names.now) (expr_term arg.now))) }
{
    TNode::sign(alloc, signed, placed_child(alloc, names, arg)?)
}

/// Such copies of a list of expressions.
#[cycle(by_places)]
fn placed_all(alloc: Global, names: &Names, parts: &[TExpr]) -> Result<Items<TExpr>, NoMemory>
    ensures { IfOk result (λ r. expr_terms r ≡ spec.all_by_places (mentioned names.now) (expr_terms parts.now)) }
{
    let mut copies = Items::new(alloc);
    for e in parts {
        copies = pushed(copies, by_places(alloc, names, e))?;
    }
    Ok(copies)
}

#[cycle(by_places)]
fn placed_ranges(alloc: Global, names: &Names, set: &[TRange]) -> Result<Items<TRange>, NoMemory>
    ensures { IfOk result (λ r. range_terms r ≡ spec.ranges_by_places (mentioned names.now) (range_terms set.now)) }
{
    let mut copies = Items::new(alloc);
    for range in set {
        copies = pushed(copies, placed_range(alloc, names, range))?;
    }
    Ok(copies)
}

/// Such a copy of a member of a set.
#[cycle(by_places)]
fn placed_range(alloc: Global, names: &Names, range: &TRange) -> Result<TRange, NoMemory>
    ensures { IfOk result (λ r. range_term r ≡ spec.range_by_places (mentioned names.now) (range_term range.now)) }
{
    match range {
        TRange::One(e) => Ok(TRange::one(by_places(alloc, names, e)?)),
        TRange::Span(low, high) => {
            let (low, high) = both(
                placed_bound(alloc, names, low),
                placed_bound(alloc, names, high),
            )?;
            Ok(TRange::span(low, high))
        }
    }
}

#[cycle(by_places)]
fn placed_bound(alloc: Global, names: &Names, bound: &TBound) -> Result<TBound, NoMemory>
    ensures { IfOk result (λ r. bound_term r ≡ spec.bound_by_places (mentioned names.now) (bound_term bound.now)) }
{
    match bound {
        TBound::Value(e) => Ok(TBound::value(by_places(alloc, names, e)?)),
        TBound::Dollar => Ok(TBound::dollar()),
    }
}
