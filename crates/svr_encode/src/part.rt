// The parts of a node, each in the context in which it is computed (IEEE 1800-2017, 11.6 to 11.8).

ghost use Rattle.std.specs.Prelude.{◌≡◌, ◌∷◌, ◌++◌, [], map, slice_index, None, IfOk};
ghost use Rattle.svr_typed.specs.ExprTerm.{expr_term, expr_terms};
ghost use Rattle.svr_eval.specs.Typed.{IsTyped, AreTyped};
ghost use Rattle.svr_eval.specs.Operator as kind;
ghost use Rattle.svr_encode.specs.Parts.{part_term, in_context, alone_part, body_part, body_parts, alone_parts, beside, unary_parts, binary_parts, parts_of, AreRepeats};
ghost use Rattle.svr_encode.specs.Parts as spec;

use crate::set::set_parts;
use std::alloc::Global;
use svr_eval::{BinaryKind, UnaryKind, binary_kind, unary_kind};
use svr_inputs::Inputs;
use svr_operator::{BinOp, UnOp};
use svr_typed::{TExpr, TNode};
use svr_vector::NoMemory;

/// An expression, the width and the sign at which it is computed, where it is the body of a reduction the index, and where it is the same as an earlier part the place of that.
#[derive(Clone, Copy)]
pub(crate) struct Part<'a> {
    pub(crate) tree: &'a TExpr,
    pub(crate) width: u8,
    pub(crate) signed: bool,
    pub(crate) index: Option<u32>,
    pub(crate) same: Option<usize>,
}

/// An expression at a width and a sign.
pub(crate) fn in_context(tree: &TExpr, width: u8, signed: bool) -> Part<'_>
    ensures term { part_term result ≡ in_context width signed (expr_term tree.now) }
    ensures first { result.same ≡ None }
{
    Part {
        tree,
        width,
        signed,
        index: None,
        same: None,
    }
}

/// An expression at its own size and sign.
fn alone(tree: &TExpr) -> Part<'_>
    requires { IsTyped (expr_term tree.now) }
    ensures term { part_term result ≡ alone_part (expr_term tree.now) }
    ensures first { result.same ≡ None }
{
    in_context(tree, tree.width, tree.signed)
}

/// The first beside the second: at the greater size, signed where both are (11.8.2).
fn beside<'a>(x: &'a TExpr, y: &TExpr) -> Part<'a>
    requires x_typed { IsTyped (expr_term x.now) }
    requires y_typed { IsTyped (expr_term y.now) }
    ensures term { part_term result ≡ beside (expr_term x.now) (expr_term y.now) }
    ensures first { result.same ≡ None }
{
    in_context(x, x.width.max(y.width), x.signed && y.signed)
}

/// The second beside the first.
fn behind<'a>(x: &TExpr, y: &'a TExpr) -> Part<'a>
    requires x_typed { IsTyped (expr_term x.now) }
    requires y_typed { IsTyped (expr_term y.now) }
    ensures term { part_term result ≡ spec.behind (expr_term x.now) (expr_term y.now) }
    ensures first { result.same ≡ None }
{
    in_context(y, x.width.max(y.width), x.signed && y.signed)
}

/// The body of a reduction at an index.
fn body_at(body: &TExpr, index: u32) -> Part<'_>
    requires { IsTyped (expr_term body.now) }
    ensures term { part_term result ≡ body_part (expr_term body.now) index }
    ensures first { result.same ≡ None }
{
    Part {
        tree: body,
        width: body.width,
        signed: body.signed,
        index: Some(index),
        same: None,
    }
}

/// The body of a reduction at each index below `count`.
fn bodies(alloc: Global, body: &TExpr, count: u32) -> Result<Vec<Part<'_>>, NoMemory>
    requires { IsTyped (expr_term body.now) }
    ensures parts { IfOk result (λ ps. map part_term ps.items ≡ body_parts count (expr_term body.now)) }
    ensures repeats { IfOk result (λ ps. AreRepeats [] ps.items) }
{
    let mut parts = Vec::new(alloc);
    for i in 0..count {
        parts.push(body_at(body, i))?;
    }
    Ok(parts)
}

/// Each expression alone.
fn each_alone(alloc: Global, trees: &[TExpr]) -> Result<Vec<Part<'_>>, NoMemory>
    requires { AreTyped (expr_terms trees.now) }
    ensures parts { IfOk result (λ ps. map part_term ps.items ≡ alone_parts (expr_terms trees.now)) }
    ensures repeats { IfOk result (λ ps. AreRepeats [] ps.items) }
{
    let mut parts = Vec::new(alloc);
    for tree in trees {
        parts.push(alone(tree))?;
    }
    Ok(parts)
}

/// An expression alone.
fn of_one(alloc: Global, tree: &TExpr) -> Result<Vec<Part<'_>>, NoMemory>
    requires { IsTyped (expr_term tree.now) }
    ensures parts { IfOk result (λ ps. map part_term ps.items ≡ alone_part (expr_term tree.now) ∷ []) }
    ensures repeats { IfOk result (λ ps. AreRepeats [] ps.items) }
{
    Ok(vec![in alloc; alone(tree)]?)
}

/// Two expressions, each alone.
fn of_two<'a>(alloc: Global, first: &'a TExpr, second: &'a TExpr) -> Result<Vec<Part<'a>>, NoMemory>
    requires first_typed { IsTyped (expr_term first.now) }
    requires second_typed { IsTyped (expr_term second.now) }
    ensures parts { IfOk result (λ ps. map part_term ps.items ≡ alone_part (expr_term first.now) ∷ alone_part (expr_term second.now) ∷ []) }
    ensures repeats { IfOk result (λ ps. AreRepeats [] ps.items) }
{
    Ok(vec![in alloc; alone(first), alone(second)]?)
}

/// An expression in the context of the whole.
fn of_copy(alloc: Global, tree: &TExpr, width: u8, signed: bool) -> Result<Vec<Part<'_>>, NoMemory>
    ensures parts { IfOk result (λ ps. map part_term ps.items ≡ in_context width signed (expr_term tree.now) ∷ []) }
    ensures repeats { IfOk result (λ ps. AreRepeats [] ps.items) }
{
    Ok(vec![in alloc; in_context(tree, width, signed)]?)
}

/// A test alone, and the two values in the context of the whole.
fn of_choice<'a>(
    alloc: Global,
    test: &'a TExpr,
    met: &'a TExpr,
    unmet: &'a TExpr,
    width: u8,
    signed: bool,
) -> Result<Vec<Part<'a>>, NoMemory>
    requires { IsTyped (expr_term test.now) }
    ensures parts { IfOk result (λ ps. map part_term ps.items ≡ alone_part (expr_term test.now) ∷ in_context width signed (expr_term met.now) ∷ in_context width signed (expr_term unmet.now) ∷ []) }
    ensures repeats { IfOk result (λ ps. AreRepeats [] ps.items) }
{
    let first = in_context(met, width, signed);
    let second = in_context(unmet, width, signed);
    Ok(vec![in alloc; alone(test), first, second]?)
}

/// The operand of a unary operator.
fn of_unary(
    alloc: Global,
    op: UnOp,
    x: &TExpr,
    width: u8,
    signed: bool,
) -> Result<Vec<Part<'_>>, NoMemory>
    requires { IsTyped (expr_term x.now) }
    ensures parts { IfOk result (λ ps. map part_term ps.items ≡ unary_parts (kind.unary_kind op) (expr_term x.now) width signed) }
    ensures repeats { IfOk result (λ ps. AreRepeats [] ps.items) }
{
    match unary_kind(op) {
        UnaryKind::Changed(_) => of_copy(alloc, x, width, signed),
        UnaryKind::Reduced(_) => of_one(alloc, x),
    }
}

/// The operands of a binary operator.
fn of_binary<'a>(
    alloc: Global,
    op: BinOp,
    left: &'a TExpr,
    right: &'a TExpr,
    width: u8,
    signed: bool,
) -> Result<Vec<Part<'a>>, NoMemory>
    requires left_typed { IsTyped (expr_term left.now) }
    requires right_typed { IsTyped (expr_term right.now) }
    ensures parts { IfOk result (λ ps. map part_term ps.items ≡ binary_parts (kind.binary_kind op) (expr_term left.now) (expr_term right.now) width signed) }
    ensures repeats { IfOk result (λ ps. AreRepeats [] ps.items) }
{
    match binary_kind(op) {
        BinaryKind::InContext(_) => {
            let x = in_context(left, width, signed);
            Ok(vec![in alloc; x, in_context(right, width, signed)]?)
        }
        BinaryKind::Shifted(_) => {
            let x = in_context(left, width, signed);
            Ok(vec![in alloc; x, alone(right)]?)
        }
        BinaryKind::ByPair(_) => Ok(vec![in alloc; beside(left, right), behind(left, right)]?),
        BinaryKind::Logical(_) => of_two(alloc, left, right),
    }
}

/// The parts of an expression at a width and a sign. A constant that only counts is no part.
pub(crate) fn parts_of<'a>(
    alloc: Global,
    inputs: &Inputs<'_>,
    e: &'a TExpr,
    width: u8,
    signed: bool,
) -> Result<Vec<Part<'a>>, NoMemory>
    requires { IsTyped (expr_term e.now) }
    ensures parts { IfOk result (λ ps. map part_term ps.items ≡ parts_of (λ p. slice_index inputs.now.sizes.now p) (expr_term e.now) width signed) }
    ensures repeats { IfOk result (λ ps. AreRepeats [] ps.items) }
{
    match &e.node {
        TNode::Number { .. }
        | TNode::Prop(_)
        | TNode::Size(..)
        | TNode::Script(_)
        | TNode::Loop(_) => Ok(Vec::new(alloc)),
        TNode::Element(_, index) => of_one(alloc, index.get()),
        TNode::Cell(_, _, first, second) => of_two(alloc, first.get(), second.get()),
        TNode::Reduce(prop, _, body) => bodies(alloc, body.get(), inputs.size(*prop)),
        TNode::Of(_, part) => of_copy(alloc, part.get(), width, signed),
        TNode::Select {
            base,
            first,
            last,
            ..
        } => match last {
            None => of_two(alloc, base.get(), first.get()),
            Some(last) => of_two(alloc, base.get(), last.get()),
        },
        TNode::Unary { op, arg } => of_unary(alloc, *op, arg.get(), width, signed),
        TNode::Binary { op, left, right } => {
            of_binary(alloc, *op, left.get(), right.get(), width, signed)
        }
        TNode::Choice { test, yes, no } => {
            of_choice(alloc, test.get(), yes.get(), no.get(), width, signed)
        }
        TNode::Inside { left, set } => set_parts(alloc, set.as_slice(), left.get()),
        TNode::Join { parts } | TNode::Copies { parts, .. } => each_alone(alloc, parts.as_slice()),
        TNode::Sign { arg, .. } => of_one(alloc, arg.get()),
    }
}
