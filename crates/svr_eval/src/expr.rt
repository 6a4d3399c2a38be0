// The value of an expression, at the width and the sign of its context (IEEE 1800-2017, 11.6 to 11.8).

ghost use Rattle.std.specs.Prelude.{◌≡◌, ◌≤◌, ◌<◌, ◌+◌, ◌*◌, ◌^◌, ◌&&◌, ℕ, [], length};
ghost use Rattle.svr_limits.specs.declared.limit.TheConstants.{LOOP_LIMIT};
ghost use Rattle.svr_num.specs.Num.{extend_of};
ghost use Rattle.svr_typed.specs.ExprTerm.{expr_term, expr_terms, range_term, range_terms, bound_term, reduce as reduce_term, unary as unary_term, binary as binary_term};
ghost use Rattle.svr_eval.specs.Reading.{blank, reading_of};
ghost use Rattle.svr_eval.specs.Typed.{IsConstant, IsTyped, AreTyped, RangesAreTyped, RangeIsTyped, BoundIsTyped, CanRead, AllCanRead, RangesCanRead, RangeCanRead, BoundCanRead};
ghost use Rattle.svr_eval.specs.Operator.{unary_size, binary_size};
ghost use Rattle.svr_eval.specs.Operator as kind;
ghost use Rattle.svr_eval.specs.Value as spec;
ghost use Rattle.svr_eval.specs.Compared.{compares};

use crate::assign::Assign;
use crate::env::Env;
use crate::operator::{
    BinaryKind, Comparison, UnaryKind, binary_kind, fold_operator, fold_start, unary_kind,
};
use crate::parts::{
    bits, bits_from, cell_at, copied, element_at, join, literal, place_of, read, truth,
};
use svr_num::Bits;
use svr_operator::{BinOp, Fold, UnOp};
use svr_typed::{TBound, TExpr, TNode, TRange};

/// The value at the width and the sign of a context, which is no narrower than the expression.
#[cycle(value)]
pub fn value_at(e: &TExpr, width: u8, signed: bool, a: &Assign, env: &Env) -> Bits
    requires typed { IsTyped (expr_term e.now) }
    requires reads { CanRead (reading_of a.now) (length env.now) (expr_term e.now) }
    requires wide { e.now.width ≤ width }
    requires high { width ≤ 64 }
    ensures value { result.value ≡ spec.val (reading_of a.now) env.now (expr_term e.now) width signed }
    ensures width { result.width ≡ width }
{
    match &e.node {
        TNode::Number { value, every } => literal(*value, *every, e.width, width, signed),
        TNode::Prop(prop) => bits(a.element(*prop, 0), e.width).extend(width, signed),
        TNode::Element(prop, index) => {
            let index = index.get();
            let at = read(value(index, a, env), index.signed);
            bits(element_at(a, *prop, at), e.width).extend(width, signed)
        }
        TNode::Cell(prop, inner, first, second) => {
            cell(*prop, *inner, e.width, first.get(), second.get(), a, env).extend(width, signed)
        }
        TNode::Size(prop, inner) => {
            bits(u64::from(a.size(*prop) / *inner), 32).extend(width, signed)
        }
        TNode::Script(variable) => bits(a.script(*variable), e.width).extend(width, signed),
        TNode::Loop(k) => bits(u64::from(env.loop_index(*k)), 32).extend(width, signed),
        TNode::Reduce(prop, op, body) => { reduced(*prop, *op, body.get(), width, signed, a, env) }
        TNode::Of(_, part) => value_at(part.get(), width, signed, a, env),
        TNode::Select {
            base,
            first,
            last,
            low,
        } => {
            let last = match last {
                None => first.get(),
                Some(last) => last.get(),
            };
            selected(base.get(), last, *low, e.width, a, env).extend(width, signed)
        }
        TNode::Unary { op, arg } => unary(*op, arg.get(), width, signed, a, env),
        TNode::Binary { op, left, right } => {
            binary(*op, left.get(), right.get(), width, signed, a, env)
        }
        TNode::Choice { test, yes, no } => {
            let is_set = value(test.get(), a, env).value() != 0;
            let chosen = if is_set { yes.get() } else { no.get() };
            value_at(chosen, width, signed, a, env)
        }
        TNode::Inside { left, set } => truth(
            fits_some(set.as_slice(), left.get(), a, env),
            width,
            signed,
        ),
        TNode::Join { parts } => joined(parts.as_slice(), a, env).extend(width, signed),
        TNode::Copies { count, parts } => {
            replicated(parts.as_slice(), count.get(), e.width, a, env).extend(width, signed)
        }
        TNode::Sign { arg, .. } => value(arg.get(), a, env).extend(width, signed),
    }
}

/// The value at the expression's own size and sign: `e.width` bits.
#[cycle(value)]
pub fn value(e: &TExpr, a: &Assign, env: &Env) -> Bits
    requires typed { IsTyped (expr_term e.now) }
    requires reads { CanRead (reading_of a.now) (length env.now) (expr_term e.now) }
    ensures value { result.value ≡ spec.alone (reading_of a.now) env.now (expr_term e.now) }
    ensures width { result.width ≡ spec.size_of (expr_term e.now) }
{
    value_at(e, e.width, e.signed, a, env)
}

/// The element of `width` bits that two indexes name.
#[cycle(value)]
fn cell(
    prop: u32,
    inner: u32,
    width: u8,
    first: &TExpr,
    second: &TExpr,
    a: &Assign,
    env: &Env,
) -> Bits
    requires first_typed { IsTyped (expr_term first.now) }
    requires second_typed { IsTyped (expr_term second.now) }
    requires first_reads { CanRead (reading_of a.now) (length env.now) (expr_term first.now) }
    requires second_reads { CanRead (reading_of a.now) (length env.now) (expr_term second.now) }
    requires low { 1 ≤ width }
    requires high { width ≤ 64 }
    requires fits { (i : ℕ) → (reading_of a.now).element prop i < 2 ^ width }
    ensures value { result.value ≡ spec.cell_at (reading_of a.now) prop inner
        (spec.index_read (reading_of a.now) env.now (expr_term first.now)) (spec.index_read (reading_of a.now) env.now (expr_term second.now)) }
    ensures width { result.width ≡ width }
{
    let row = read(value(first, a, env), first.signed);
    let column = read(value(second, a, env), second.signed);
    bits(cell_at(a, prop, inner, row, column), width)
}

/// The reduction of an array by its body, which is computed alone.
#[cycle(value)]
fn reduced(
    prop: u32,
    op: Fold,
    body: &TExpr,
    width: u8,
    signed: bool,
    a: &Assign,
    env: &Env,
) -> Bits
    requires typed { IsTyped (expr_term body.now) }
    requires reads { CanRead (reading_of a.now) (length env.now + 1) (expr_term body.now) }
    requires depth { length env.now < LOOP_LIMIT }
    requires wide { body.now.width ≤ width }
    requires high { width ≤ 64 }
    ensures value { result.value ≡ spec.node_val (reading_of a.now) env.now 0 signed (reduce_term prop op (expr_term body.now)) width signed }
    ensures width { result.width ≡ width }
{
    let operator = fold_operator(op);
    let mut total = fold_start(op, body.width);
    for i in 0..a.size(prop) {
        total = operator.apply(total, value(body, a, &env.inner(i)), false);
    }
    total.extend(width, signed)
}

/// `width` bits of `base` down to the bit that `last` names.
#[cycle(value)]
fn selected(base: &TExpr, last: &TExpr, low: i64, width: u8, a: &Assign, env: &Env) -> Bits
    requires base_typed { IsTyped (expr_term base.now) }
    requires last_typed { IsTyped (expr_term last.now) }
    requires base_reads { CanRead (reading_of a.now) (length env.now) (expr_term base.now) }
    requires last_reads { CanRead (reading_of a.now) (length env.now) (expr_term last.now) }
    requires low_width { 1 ≤ width }
    requires high { width ≤ 64 }
    ensures value { result.value ≡ spec.selected (reading_of a.now) env.now (expr_term base.now) (expr_term last.now) low width }
    ensures width { result.width ≡ width }
{
    let from = place_of(value(last, a, env), last.signed, low);
    bits_from(value(base, a, env), from, width)
}

/// So many copies of the joined parts that they have `width` bits.
#[cycle(value)]
fn replicated(parts: &[TExpr], count: &TExpr, width: u8, a: &Assign, env: &Env) -> Bits
    requires count_typed { IsTyped (expr_term count.now) }
    requires constant { IsConstant (expr_term count.now) }
    requires count_reads { CanRead (reading_of a.now) (length env.now) (expr_term count.now) }
    requires typed { AreTyped (expr_terms parts.now) }
    requires reads { AllCanRead (reading_of a.now) (length env.now) (expr_terms parts.now) }
    requires size { spec.alone blank [] (expr_term count.now) * spec.sizes (expr_terms parts.now) ≡ width }
    requires low { 1 ≤ width }
    requires high { width ≤ 64 }
    ensures value { result.value ≡ spec.replicated (reading_of a.now) env.now (expr_term count.now) (expr_terms parts.now) }
    ensures width { result.width ≡ width }
{
    let count = value(count, a, env).value();
    copied(count, joined(parts, a, env))
}

#[cycle(value)]
fn unary(op: UnOp, x: &TExpr, width: u8, signed: bool, a: &Assign, env: &Env) -> Bits
    requires typed { IsTyped (expr_term x.now) }
    requires reads { CanRead (reading_of a.now) (length env.now) (expr_term x.now) }
    requires wide { unary_size (kind.unary_kind op) x.now.width ≤ width }
    requires high { width ≤ 64 }
    ensures value { result.value ≡ spec.node_val (reading_of a.now) env.now 0 signed (unary_term op (expr_term x.now)) width signed }
    ensures width { result.width ≡ width }
{
    match unary_kind(op) {
        UnaryKind::Changed(change) => change.apply(value_at(x, width, signed, a, env)),
        UnaryKind::Reduced(reduction) => { truth(reduction.holds(value(x, a, env)), width, signed) }
    }
}

#[cycle(value)]
fn binary(
    op: BinOp,
    left: &TExpr,
    right: &TExpr,
    width: u8,
    signed: bool,
    a: &Assign,
    env: &Env,
) -> Bits
    requires left_typed { IsTyped (expr_term left.now) }
    requires right_typed { IsTyped (expr_term right.now) }
    requires left_reads { CanRead (reading_of a.now) (length env.now) (expr_term left.now) }
    requires right_reads { CanRead (reading_of a.now) (length env.now) (expr_term right.now) }
    requires wide { binary_size (kind.binary_kind op) left.now.width right.now.width ≤ width }
    requires high { width ≤ 64 }
    ensures value { result.value ≡ spec.node_val (reading_of a.now) env.now 0 signed (binary_term op (expr_term left.now) (expr_term right.now)) width signed }
    ensures width { result.width ≡ width }
{
    match binary_kind(op) {
        BinaryKind::InContext(arithmetic) => {
            let x = value_at(left, width, signed, a, env);
            arithmetic.apply(x, value_at(right, width, signed, a, env), signed)
        }
        BinaryKind::Shifted(shift) => {
            let x = value_at(left, width, signed, a, env);
            shift.apply(x, value(right, a, env).value(), signed)
        }
        BinaryKind::ByPair(comparison) => {
            truth(compares(comparison, left, right, a, env), width, signed)
        }
        BinaryKind::Logical(connective) => {
            let p = value(left, a, env).value() != 0;
            let q = value(right, a, env).value() != 0;
            truth(connective.holds(p, q), width, signed)
        }
    }
}

/// Whether both are signed (IEEE 1800-2017, 11.8.1).
fn are_signed(x: &TExpr, y: &TExpr) -> bool
    ensures { result ≡ (x.now.signed && y.now.signed) }
{
    x.signed && y.signed
}

/// Whether a comparison holds of two operands, at the greater of their sizes, signed where both are (IEEE 1800-2017, 11.4.4 and 11.4.5).
#[cycle(value)]
fn compares(comparison: Comparison, left: &TExpr, right: &TExpr, a: &Assign, env: &Env) -> bool
    requires left_typed { IsTyped (expr_term left.now) }
    requires right_typed { IsTyped (expr_term right.now) }
    requires left_reads { CanRead (reading_of a.now) (length env.now) (expr_term left.now) }
    requires right_reads { CanRead (reading_of a.now) (length env.now) (expr_term right.now) }
    ensures { result ≡ compares comparison (spec.operand_of (reading_of a.now) env.now (expr_term left.now)) (spec.operand_of (reading_of a.now) env.now (expr_term right.now)) }
{
    let common = left.width.max(right.width);
    let both = are_signed(left, right);
    let x = value_at(left, common, both, a, env);
    let y = value_at(right, common, both, a, env);
    comparison.holds(x, y, both)
}

/// The parts from left to right, the first one highest.
#[cycle(value)]
fn joined(parts: &[TExpr], a: &Assign, env: &Env) -> Bits
    requires typed { AreTyped (expr_terms parts.now) }
    requires reads { AllCanRead (reading_of a.now) (length env.now) (expr_terms parts.now) }
    requires some { 1 ≤ spec.sizes (expr_terms parts.now) }
    requires high { spec.sizes (expr_terms parts.now) ≤ 64 }
    ensures value { result.value ≡ spec.joined (reading_of a.now) env.now (expr_terms parts.now) }
    ensures width { result.width ≡ spec.sizes (expr_terms parts.now) }
{
    let mut at = parts.len() - 1;
    let mut whole = value(&parts[at], a, env);
    while at > 0 {
        at -= 1;
        whole = join(value(&parts[at], a, env), whole);
    }
    whole
}

#[cycle(value)]
fn fits_some(set: &[TRange], left: &TExpr, a: &Assign, env: &Env) -> bool
    requires left_typed { IsTyped (expr_term left.now) }
    requires left_reads { CanRead (reading_of a.now) (length env.now) (expr_term left.now) }
    requires set_typed { RangesAreTyped (range_terms set.now) }
    requires set_reads { RangesCanRead (reading_of a.now) (length env.now) (range_terms set.now) }
    ensures { result ≡ spec.fits_some (reading_of a.now) env.now (spec.operand_of (reading_of a.now) env.now (expr_term left.now)) (range_terms set.now) }
{
    for range in set {
        if fits(range, left, a, env) {
            return true;
        }
    }
    false
}

/// Whether `left` is in the range.
#[cycle(value)]
pub(crate) fn fits(range: &TRange, left: &TExpr, a: &Assign, env: &Env) -> bool
    requires left_typed { IsTyped (expr_term left.now) }
    requires left_reads { CanRead (reading_of a.now) (length env.now) (expr_term left.now) }
    requires range_typed { RangeIsTyped (range_term range.now) }
    requires range_reads { RangeCanRead (reading_of a.now) (length env.now) (range_term range.now) }
    ensures { result ≡ spec.fits (reading_of a.now) env.now (spec.operand_of (reading_of a.now) env.now (expr_term left.now)) (range_term range.now) }
{
    match range {
        TRange::One(member) => equals_member(member, left, a, env),
        TRange::Span(low, high) => is_from(low, left, a, env) && is_up_to(high, left, a, env),
    }
}

/// The property that the expression as a whole is.
pub(crate) fn property(e: &TExpr) -> Option<u32>
    ensures { result ≡ spec.property_of (expr_term e.now) }
{
    match &e.node {
        TNode::Prop(prop) => Some(*prop),
        TNode::Number { .. }
        | TNode::Element(..)
        | TNode::Cell(..)
        | TNode::Size(..)
        | TNode::Script(_)
        | TNode::Loop(_)
        | TNode::Reduce(..)
        | TNode::Of(..)
        | TNode::Select { .. }
        | TNode::Unary { .. }
        | TNode::Binary { .. }
        | TNode::Choice { .. }
        | TNode::Inside { .. }
        | TNode::Join { .. }
        | TNode::Copies { .. }
        | TNode::Sign { .. } => None,
    }
}

#[cycle(value)]
fn equals_member(member: &TExpr, left: &TExpr, a: &Assign, env: &Env) -> bool
    requires left_typed { IsTyped (expr_term left.now) }
    requires left_reads { CanRead (reading_of a.now) (length env.now) (expr_term left.now) }
    requires typed { IsTyped (expr_term member.now) }
    requires reads { CanRead (reading_of a.now) (length env.now) (expr_term member.now) }
    ensures { result ≡ spec.equals_member (reading_of a.now) (spec.operand_of (reading_of a.now) env.now (expr_term left.now))
        (spec.property_of (expr_term member.now)) (spec.operand_of (reading_of a.now) env.now (expr_term member.now)) }
{
    match property(member) {
        Some(prop) => {
            let common = left.width.max(member.width);
            let both = are_signed(left, member);
            let x = value_at(left, common, both, a, env);
            is_some_element(x, prop, member.width, both, a)
        }
        None => compares(Comparison::Equal, left, member, a, env),
    }
}

/// Whether some element of an array of this width, extended to that of `x`, is `x`.
#[tactic(auto, unfolding(crate::specs::Value::has_element))]
fn is_some_element(x: Bits, prop: u32, width: u8, signed: bool, a: &Assign) -> bool
    requires low { 1 ≤ width }
    requires wide { width ≤ x.width }
    requires fits { (i : ℕ) → (reading_of a.now).element prop i < 2 ^ width }
    ensures { result ≡ spec.has_element (reading_of a.now) prop width x.width signed x.value }
{
    for i in 0..a.size(prop) {
        let element = bits(a.element(prop, u64::from(i)), width);
        if element.extend(x.width(), signed).value() == x.value() {
            return true;
        }
    }
    false
}

#[cycle(value)]
fn is_from(bound: &TBound, left: &TExpr, a: &Assign, env: &Env) -> bool
    requires left_typed { IsTyped (expr_term left.now) }
    requires left_reads { CanRead (reading_of a.now) (length env.now) (expr_term left.now) }
    requires typed { BoundIsTyped (bound_term bound.now) }
    requires reads { BoundCanRead (reading_of a.now) (length env.now) (bound_term bound.now) }
    ensures { result ≡ spec.is_from (reading_of a.now) env.now (spec.operand_of (reading_of a.now) env.now (expr_term left.now)) (bound_term bound.now) }
{
    match bound {
        TBound::Value(low) => compares(Comparison::AtLeast, left, low, a, env),
        TBound::Dollar => true,
    }
}

#[cycle(value)]
fn is_up_to(bound: &TBound, left: &TExpr, a: &Assign, env: &Env) -> bool
    requires left_typed { IsTyped (expr_term left.now) }
    requires left_reads { CanRead (reading_of a.now) (length env.now) (expr_term left.now) }
    requires typed { BoundIsTyped (bound_term bound.now) }
    requires reads { BoundCanRead (reading_of a.now) (length env.now) (bound_term bound.now) }
    ensures { result ≡ spec.is_up_to (reading_of a.now) env.now (spec.operand_of (reading_of a.now) env.now (expr_term left.now)) (bound_term bound.now) }
{
    match bound {
        TBound::Value(high) => compares(Comparison::AtLeast, high, left, a, env),
        TBound::Dollar => true,
    }
}
