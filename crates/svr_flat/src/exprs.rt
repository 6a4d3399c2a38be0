// Copies of expressions.

ghost use Rattle.std.specs.Prelude.{◌≡◌, IfOk};

use crate::memory::{and_item, both, boxed};
use sqlite_items::{Boxed, Items};
use std::alloc::Global;
use svr_operator::{BinOp, Fold, UnOp};
use svr_typed::{NoMemory, TBound, TExpr, TNode, TRange};

/// A copy of an expression.
#[cycle(copy_expr)]
pub fn copy_expr(alloc: Global, e: &TExpr) -> Result<TExpr, NoMemory>
    ensures { IfOk result (λ copy. copy ≡ e.now) }
{
    let node = match &e.node {
        TNode::Number { value, every } => Ok(TNode::Number {
            value: *value,
            every: *every,
        }),
        TNode::Prop(prop) => Ok(TNode::Prop(*prop)),
        TNode::Element(prop, index) => copy_element(alloc, *prop, index),
        TNode::Cell(prop, inner, first, second) => {
            copy_cell(alloc, *prop, *inner, first, second)
        }
        TNode::Size(prop, inner) => Ok(TNode::Size(*prop, *inner)),
        TNode::Script(variable) => Ok(TNode::Script(*variable)),
        TNode::Loop(depth) => Ok(TNode::Loop(*depth)),
        TNode::Reduce(prop, op, body) => copy_reduction(alloc, *prop, *op, body),
        TNode::Of(object, part) => copy_part(alloc, *object, part),
        TNode::Select {
            base,
            first,
            last,
            low,
        } => match last {
            None => copy_bit_select(alloc, base, first, *low),
            Some(last) => copy_part_select(alloc, base, first, last, *low),
        },
        TNode::Unary { op, arg } => copy_unary(alloc, *op, arg),
        TNode::Binary { op, left, right } => copy_binary(alloc, *op, left, right),
        TNode::Choice { test, yes, no } => copy_choice(alloc, test, yes, no),
        TNode::Inside { left, set } => copy_inside(alloc, set.as_slice(), left),
        TNode::Join { parts } => copy_join(alloc, parts.as_slice()),
        TNode::Copies { count, parts } => copy_replication(alloc, parts.as_slice(), count),
        TNode::Sign { signed, arg } => copy_sign(alloc, *signed, arg),
    };
    Ok(TExpr {
        width: e.width,
        signed: e.signed,
        node: node?,
    })
}

#[cycle(copy_expr)]
fn copy_boxed(alloc: Global, e: &Boxed<TExpr>) -> Result<Boxed<TExpr>, NoMemory>
    ensures { IfOk result (λ copy. copy ≡ e.now) }
{
    boxed(alloc, copy_expr(alloc, e.get()))
}

#[cycle(copy_expr)]
fn copy_pair(
    alloc: Global,
    first: &Boxed<TExpr>,
    second: &Boxed<TExpr>,
) -> Result<(Boxed<TExpr>, Boxed<TExpr>), NoMemory>
    ensures first { IfOk result (λ copies. copies.0 ≡ first.now) }
    ensures second { IfOk result (λ copies. copies.1 ≡ second.now) }
{
    both(copy_boxed(alloc, first), copy_boxed(alloc, second))
}

#[cycle(copy_expr)]
fn copy_element(alloc: Global, prop: u32, index: &Boxed<TExpr>) -> Result<TNode, NoMemory>
    ensures { IfOk result (λ n. n ≡ TNode.Element prop index.now) }
{
    Ok(TNode::Element(prop, copy_boxed(alloc, index)?))
}

#[cycle(copy_expr)]
fn copy_cell(
    alloc: Global,
    prop: u32,
    inner: u32,
    first: &Boxed<TExpr>,
    second: &Boxed<TExpr>,
) -> Result<TNode, NoMemory>
    ensures { IfOk result (λ n. n ≡ TNode.Cell prop inner first.now second.now) }
{
    let (first, second) = copy_pair(alloc, first, second)?;
    Ok(TNode::Cell(prop, inner, first, second))
}

#[cycle(copy_expr)]
fn copy_reduction(
    alloc: Global,
    prop: u32,
    op: Fold,
    body: &Boxed<TExpr>,
) -> Result<TNode, NoMemory>
    ensures { IfOk result (λ n. n ≡ TNode.Reduce prop op body.now) }
{
    Ok(TNode::Reduce(prop, op, copy_boxed(alloc, body)?))
}

#[cycle(copy_expr)]
fn copy_part(alloc: Global, object: u32, part: &Boxed<TExpr>) -> Result<TNode, NoMemory>
    ensures { IfOk result (λ n. n ≡ TNode.Of object part.now) }
{
    Ok(TNode::Of(object, copy_boxed(alloc, part)?))
}

#[cycle(copy_expr)]
fn copy_bit_select(
    alloc: Global,
    base: &Boxed<TExpr>,
    index: &Boxed<TExpr>,
    low: i64,
) -> Result<TNode, NoMemory>
    ensures { IfOk result (λ n. n ≡ TNode.Select base.now index.now None low) }
{
    let (base, first) = copy_pair(alloc, base, index)?;
    Ok(TNode::Select {
        base,
        first,
        last: None,
        low,
    })
}

#[cycle(copy_expr)]
fn copy_part_select(
    alloc: Global,
    base: &Boxed<TExpr>,
    first: &Boxed<TExpr>,
    last: &Boxed<TExpr>,
    low: i64,
) -> Result<TNode, NoMemory>
    ensures { IfOk result (λ n. n ≡ TNode.Select base.now first.now (Some last.now) low) }
{
    let ((base, first), last) = both(copy_pair(alloc, base, first), copy_boxed(alloc, last))?;
    Ok(TNode::Select {
        base,
        first,
        last: Some(last),
        low,
    })
}

#[cycle(copy_expr)]
fn copy_unary(alloc: Global, op: UnOp, arg: &Boxed<TExpr>) -> Result<TNode, NoMemory>
    ensures { IfOk result (λ n. n ≡ TNode.Unary op arg.now) }
{
    let arg = copy_boxed(alloc, arg)?;
    Ok(TNode::Unary { op, arg })
}

#[cycle(copy_expr)]
fn copy_binary(
    alloc: Global,
    op: BinOp,
    left: &Boxed<TExpr>,
    right: &Boxed<TExpr>,
) -> Result<TNode, NoMemory>
    ensures { IfOk result (λ n. n ≡ TNode.Binary op left.now right.now) }
{
    let (left, right) = copy_pair(alloc, left, right)?;
    Ok(TNode::Binary { op, left, right })
}

#[cycle(copy_expr)]
fn copy_choice(
    alloc: Global,
    test: &Boxed<TExpr>,
    yes: &Boxed<TExpr>,
    no: &Boxed<TExpr>,
) -> Result<TNode, NoMemory>
    ensures { IfOk result (λ n. n ≡ TNode.Choice test.now yes.now no.now) }
{
    let (test, (yes, no)) = both(copy_boxed(alloc, test), copy_pair(alloc, yes, no))?;
    Ok(TNode::Choice { test, yes, no })
}

#[cycle(copy_expr)]
fn copy_inside(alloc: Global, set: &[TRange], left: &Boxed<TExpr>) -> Result<TNode, NoMemory>
    ensures { IfOk result (λ n. n ≡ TNode.Inside left.now set.now) }
{
    let (left, set) = both(copy_boxed(alloc, left), copy_ranges(alloc, set))?;
    Ok(TNode::Inside { left, set })
}

#[cycle(copy_expr)]
fn copy_join(alloc: Global, parts: &[TExpr]) -> Result<TNode, NoMemory>
    ensures { IfOk result (λ n. n ≡ TNode.Join parts.now) }
{
    let parts = copy_exprs(alloc, parts)?;
    Ok(TNode::Join { parts })
}

#[cycle(copy_expr)]
fn copy_replication(alloc: Global, parts: &[TExpr], count: &Boxed<TExpr>) -> Result<TNode, NoMemory>
    ensures { IfOk result (λ n. n ≡ TNode.Copies count.now parts.now) }
{
    let (count, parts) = both(copy_boxed(alloc, count), copy_exprs(alloc, parts))?;
    Ok(TNode::Copies { count, parts })
}

#[cycle(copy_expr)]
fn copy_sign(alloc: Global, signed: bool, arg: &Boxed<TExpr>) -> Result<TNode, NoMemory>
    ensures { IfOk result (λ n. n ≡ TNode.Sign signed arg.now) }
{
    let arg = copy_boxed(alloc, arg)?;
    Ok(TNode::Sign { signed, arg })
}

/// Copies of expressions.
#[cycle(copy_expr)]
pub fn copy_exprs(alloc: Global, parts: &[TExpr]) -> Result<Items<TExpr>, NoMemory>
    ensures { IfOk result (λ copies. copies ≡ parts.now) }
{
    let mut copies = Items::new(alloc);
    for e in parts {
        copies = and_item(copies, copy_expr(alloc, e))?;
    }
    Ok(copies)
}

#[cycle(copy_expr)]
fn copy_ranges(alloc: Global, set: &[TRange]) -> Result<Items<TRange>, NoMemory>
    ensures { IfOk result (λ copies. copies ≡ set.now) }
{
    let mut copies = Items::new(alloc);
    for range in set {
        copies = and_item(copies, copy_range(alloc, range))?;
    }
    Ok(copies)
}

/// A copy of a member of a set.
#[cycle(copy_expr)]
pub fn copy_range(alloc: Global, range: &TRange) -> Result<TRange, NoMemory>
    ensures { IfOk result (λ copy. copy ≡ range.now) }
{
    match range {
        TRange::One(e) => Ok(TRange::One(copy_expr(alloc, e)?)),
        TRange::Span(low, high) => {
            let (low, high) = both(copy_bound(alloc, low), copy_bound(alloc, high))?;
            Ok(TRange::Span(low, high))
        }
    }
}

#[cycle(copy_expr)]
fn copy_bound(alloc: Global, bound: &TBound) -> Result<TBound, NoMemory>
    ensures { IfOk result (λ copy. copy ≡ bound.now) }
{
    match bound {
        TBound::Value(e) => Ok(TBound::Value(copy_expr(alloc, e)?)),
        TBound::Dollar => Ok(TBound::Dollar),
    }
}
