// What an expression weighs: a measure of the clauses that it becomes.

ghost use Rattle.std.specs.Prelude.{◌≡◌, ◌||◌, slice_index, ◌≤◌, ◌+◌, ◌*◌, pos};
ghost use Rattle.svr_typed.specs.ExprTerm.{expr_term, expr_terms, range_term, range_terms, bound_term, element as element_term, bit_select as bit_select_term, part_select as part_select_term, choice as choice_term, inside as inside_term, copies as copies_term, unary as unary_term, binary as binary_term};
ghost use Rattle.svr_typed.specs.ItemTerm.{dist_terms};
ghost use Rattle.svr_eval.specs.Typed.{IsTyped, AreTyped, RangesAreTyped, RangeIsTyped, BoundIsTyped};
ghost use Rattle.svr_eval.specs.Holds.{MembersAreTyped};
ghost use Rattle.svr_eval.specs.Value.{property_of};
ghost use Rattle.svr_frame.specs.Frame.{frame_term};
ghost use Rattle.svr_frame.specs.Weight.{capped, arithmetic_cost, change_cost, fold_cost};
ghost use Rattle.svr_weight.specs.Costs as spec;

use svr_eval::{Arithmetic, BinaryKind, Change, UnaryKind, binary_kind, unary_kind};
use svr_frame::{Frame, Part, holds_free_size, is_open, size_at};
use svr_operator::{BinOp, Fold, UnOp};
use svr_typed::{TBound, TDistItem, TExpr, TNode, TRange};

/// The sum, or the last value of the type where it is greater.
pub(crate) fn add(a: u128, b: u128) -> u128
    ensures { result ≡ capped (a + b) }
{
    a.saturating_add(b)
}

/// The product, or the last value of the type where it is greater.
pub(crate) fn times(a: u128, b: u128) -> u128
    ensures { result ≡ capped (a * b) }
{
    a.saturating_mul(b)
}

/// Whether the value of an index is one of many in a phase at these sizes.
fn opens(index: &TExpr, frame: &Frame, part: Part, sizes: &[u32]) -> bool
    ensures { result ≡ spec.opens (frame_term frame.now) part sizes.now (expr_term index.now) }
{
    is_open(index, frame, part)
}

/// Whether one of two indexes is such.
fn either_opens(first: &TExpr, second: &TExpr, frame: &Frame, part: Part, sizes: &[u32]) -> bool
    ensures { result ≡ (spec.opens (frame_term frame.now) part sizes.now (expr_term first.now) || spec.opens (frame_term frame.now) part sizes.now (expr_term second.now)) }
{
    opens(first, frame, part, sizes) || opens(second, frame, part, sizes)
}

/// Whether an expression holds a size that a phase looks for at these sizes.
fn holds_size(e: &TExpr, frame: &Frame, part: Part, sizes: &[u32]) -> bool
    ensures { result ≡ spec.holds_size (frame_term frame.now) part sizes.now (expr_term e.now) }
{
    holds_free_size(e, frame, part)
}

fn arithmetic_cost(op: Arithmetic, width: u8) -> u128
    requires { width ≤ 64 }
    ensures { result ≡ arithmetic_cost op width }
{
    let width = u128::from(width);
    match op {
        Arithmetic::Multiply => 2 * width * width,
        Arithmetic::Divide | Arithmetic::Modulus => 4 * width * width,
        Arithmetic::Add
        | Arithmetic::Subtract
        | Arithmetic::And
        | Arithmetic::Xor
        | Arithmetic::Xnor
        | Arithmetic::Or => width,
    }
}

fn change_cost(op: Change, width: u8) -> u128
    ensures { result ≡ change_cost op width }
{
    match op {
        Change::Plus => 1,
        Change::Minus | Change::Not => u128::from(width),
    }
}

/// A step of an array reduction (IEEE 1800-2017, 7.12.3).
fn fold_cost(op: Fold, width: u8) -> u128
    ensures { result ≡ fold_cost op width }
{
    let width = u128::from(width);
    match op {
        Fold::Product => 2 * width * width,
        Fold::Sum | Fold::And | Fold::Or | Fold::Xor => width,
    }
}

/// What an expression weighs alone, at its own width.
#[cycle(cost)]
pub(crate) fn own_cost(e: &TExpr, frame: &Frame, part: Part, sizes: &[u32]) -> u128
    requires { IsTyped (expr_term e.now) }
    ensures { result ≡ capped (spec.own_cost (frame_term frame.now) part sizes.now (expr_term e.now)) }
{
    cost(e, e.width, frame, part, sizes)
}

/// What an expression weighs at the width at which it is computed (IEEE 1800-2017, 11.6). Constants are not folded.
#[cycle(cost)]
pub(crate) fn cost(e: &TExpr, width: u8, frame: &Frame, part: Part, sizes: &[u32]) -> u128
    requires typed { IsTyped (expr_term e.now) }
    requires high { width ≤ 64 }
    ensures { result ≡ capped (spec.cost (frame_term frame.now) part sizes.now (expr_term e.now) width) }
{
    match &e.node {
        TNode::Number { .. }
        | TNode::Prop(_)
        | TNode::Size(..)
        | TNode::Script(_)
        | TNode::Loop(_) => 1,
        TNode::Element(prop, at) => element_cost(*prop, at.get(), e.width, frame, part, sizes),
        TNode::Cell(p, _, first, second) => {
            cell_cost(*p, first.get(), second.get(), e.width, frame, part, sizes)
        }
        TNode::Reduce(prop, op, body) => reduce_cost(*prop, *op, body.get(), frame, part, sizes),
        TNode::Of(_, inner) => cost(inner.get(), width, frame, part, sizes),
        TNode::Select {
            base,
            first,
            last,
            ..
        } => match last {
            None => bit_cost(base.get(), first.get(), frame, part, sizes),
            Some(last) => bits_cost(base.get(), first.get(), last.get(), frame, part, sizes),
        },
        TNode::Unary { op, arg } => unary_cost(*op, arg.get(), width, frame, part, sizes),
        TNode::Binary { op, left, right } => {
            binary_cost(*op, left.get(), right.get(), width, frame, part, sizes)
        }
        TNode::Choice { test, yes, no } => {
            choice_cost(test.get(), yes.get(), no.get(), width, frame, part, sizes)
        }
        TNode::Inside { left, set } => inside_cost(set.as_slice(), left.get(), frame, part, sizes),
        TNode::Join { parts } => add(1, exprs_cost(parts.as_slice(), frame, part, sizes)),
        TNode::Copies { count, parts } => {
            copies_cost(parts.as_slice(), count.get(), frame, part, sizes)
        }
        TNode::Sign { arg, .. } => add(1, own_cost(arg.get(), frame, part, sizes)),
    }
}

/// An element of `width` bits. Its index counts only where it is open, with the choice among all elements.
#[cycle(cost)]
fn element_cost(
    prop: u32,
    index: &TExpr,
    width: u8,
    frame: &Frame,
    part: Part,
    sizes: &[u32],
) -> u128
    requires { IsTyped (expr_term index.now) }
    ensures { result ≡ capped (spec.node_cost (frame_term frame.now) part sizes.now width (element_term prop (expr_term index.now)) 0) }
{
    if opens(index, frame, part, sizes) {
        let choice = u128::from(width) * u128::from(size_at(sizes, prop));
        add(choice, own_cost(index, frame, part, sizes))
    } else {
        1
    }
}

/// An element of `width` bits of an array of two dimensions. Its indexes count only where one is open.
#[cycle(cost)]
fn cell_cost(
    prop: u32,
    first: &TExpr,
    second: &TExpr,
    width: u8,
    frame: &Frame,
    part: Part,
    sizes: &[u32],
) -> u128
    requires first_typed { IsTyped (expr_term first.now) }
    requires second_typed { IsTyped (expr_term second.now) }
    ensures { result ≡ capped (spec.cell_cost (frame_term frame.now) part sizes.now width prop (expr_term first.now) (expr_term second.now)) }
{
    if either_opens(first, second, frame, part, sizes) {
        let choice = u128::from(width) * u128::from(size_at(sizes, prop));
        let row = add(choice, own_cost(first, frame, part, sizes));
        add(row, own_cost(second, frame, part, sizes))
    } else {
        1
    }
}

/// So much for each element of an array.
fn for_each_element(prop: u32, each: u128, sizes: &[u32]) -> u128
    ensures { result ≡ capped (slice_index sizes.now prop * each) }
{
    times(u128::from(size_at(sizes, prop)), each)
}

/// A step of an array reduction: its operator and its body.
#[cycle(cost)]
fn step_cost(op: Fold, body: &TExpr, frame: &Frame, part: Part, sizes: &[u32]) -> u128
    requires { IsTyped (expr_term body.now) }
    ensures { result ≡ capped (spec.step_cost (frame_term frame.now) part sizes.now op (expr_term body.now)) }
{
    add(
        fold_cost(op, body.width),
        own_cost(body, frame, part, sizes),
    )
}

/// An array reduction (IEEE 1800-2017, 7.12.3): a step for each element.
#[cycle(cost)]
fn reduce_cost(prop: u32, op: Fold, body: &TExpr, frame: &Frame, part: Part, sizes: &[u32]) -> u128
    requires { IsTyped (expr_term body.now) }
    ensures { result ≡ capped (slice_index sizes.now prop * spec.step_cost (frame_term frame.now) part sizes.now op (expr_term body.now)) }
{
    let each = step_cost(op, body, frame, part, sizes);
    for_each_element(prop, each, sizes)
}

/// A bit-select (IEEE 1800-2017, 11.5.1). At a size that the phase looks for it is a shift.
#[cycle(cost)]
fn bit_cost(base: &TExpr, first: &TExpr, frame: &Frame, part: Part, sizes: &[u32]) -> u128
    requires base_typed { IsTyped (expr_term base.now) }
    requires first_typed { IsTyped (expr_term first.now) }
    ensures { result ≡ capped (spec.node_cost (frame_term frame.now) part sizes.now 0 (bit_select_term (expr_term base.now) (expr_term first.now) (pos 0)) 0) }
{
    let own = if holds_size(first, frame, part, sizes) {
        8 * u128::from(base.width)
    } else {
        1
    };
    let parts = add(
        own_cost(base, frame, part, sizes),
        own_cost(first, frame, part, sizes),
    );
    add(own, parts)
}

/// A part-select (IEEE 1800-2017, 11.5.1).
#[cycle(cost)]
fn bits_cost(
    base: &TExpr,
    first: &TExpr,
    last: &TExpr,
    frame: &Frame,
    part: Part,
    sizes: &[u32],
) -> u128
    requires base_typed { IsTyped (expr_term base.now) }
    requires first_typed { IsTyped (expr_term first.now) }
    requires last_typed { IsTyped (expr_term last.now) }
    ensures { result ≡ capped (spec.node_cost (frame_term frame.now) part sizes.now 0 (part_select_term (expr_term base.now) (expr_term first.now) (expr_term last.now) (pos 0)) 0) }
{
    let bounds = add(
        own_cost(first, frame, part, sizes),
        own_cost(last, frame, part, sizes),
    );
    add(add(1, own_cost(base, frame, part, sizes)), bounds)
}

/// A conditional expression (IEEE 1800-2017, 11.4.11).
#[cycle(cost)]
fn choice_cost(
    test: &TExpr,
    yes: &TExpr,
    no: &TExpr,
    width: u8,
    frame: &Frame,
    part: Part,
    sizes: &[u32],
) -> u128
    requires test_typed { IsTyped (expr_term test.now) }
    requires yes_typed { IsTyped (expr_term yes.now) }
    requires no_typed { IsTyped (expr_term no.now) }
    requires high { width ≤ 64 }
    ensures { result ≡ capped (spec.node_cost (frame_term frame.now) part sizes.now 0 (choice_term (expr_term test.now) (expr_term yes.now) (expr_term no.now)) width) }
{
    let tested = add(u128::from(width), own_cost(test, frame, part, sizes));
    let chosen = add(
        cost(yes, width, frame, part, sizes),
        cost(no, width, frame, part, sizes),
    );
    add(tested, chosen)
}

/// A set and what may be in it (IEEE 1800-2017, 11.4.13).
#[cycle(cost)]
fn inside_cost(set: &[TRange], left: &TExpr, frame: &Frame, part: Part, sizes: &[u32]) -> u128
    requires set_typed { RangesAreTyped (range_terms set.now) }
    requires left_typed { IsTyped (expr_term left.now) }
    ensures { result ≡ capped (spec.node_cost (frame_term frame.now) part sizes.now 0 (inside_term (expr_term left.now) (range_terms set.now)) 0) }
{
    let members = ranges_cost(set, left.width, frame, part, sizes);
    add(own_cost(left, frame, part, sizes), members)
}

/// A replication (IEEE 1800-2017, 11.4.12.1).
#[cycle(cost)]
fn copies_cost(parts: &[TExpr], count: &TExpr, frame: &Frame, part: Part, sizes: &[u32]) -> u128
    requires parts_typed { AreTyped (expr_terms parts.now) }
    requires count_typed { IsTyped (expr_term count.now) }
    ensures { result ≡ capped (spec.node_cost (frame_term frame.now) part sizes.now 0 (copies_term (expr_term count.now) (expr_terms parts.now)) 0) }
{
    let counted = add(1, own_cost(count, frame, part, sizes));
    add(counted, exprs_cost(parts, frame, part, sizes))
}

#[cycle(cost)]
fn unary_cost(op: UnOp, x: &TExpr, width: u8, frame: &Frame, part: Part, sizes: &[u32]) -> u128
    requires typed { IsTyped (expr_term x.now) }
    requires high { width ≤ 64 }
    ensures { result ≡ capped (spec.node_cost (frame_term frame.now) part sizes.now 0 (unary_term op (expr_term x.now)) width) }
{
    match unary_kind(op) {
        UnaryKind::Changed(change) => {
            add(
                change_cost(change, width),
                cost(x, width, frame, part, sizes),
            )
        }
        UnaryKind::Reduced(_) => add(u128::from(x.width), own_cost(x, frame, part, sizes)),
    }
}

#[cycle(cost)]
fn binary_cost(
    op: BinOp,
    left: &TExpr,
    right: &TExpr,
    width: u8,
    frame: &Frame,
    part: Part,
    sizes: &[u32],
) -> u128
    requires left_typed { IsTyped (expr_term left.now) }
    requires right_typed { IsTyped (expr_term right.now) }
    requires high { width ≤ 64 }
    ensures { result ≡ capped (spec.node_cost (frame_term frame.now) part sizes.now 0 (binary_term op (expr_term left.now) (expr_term right.now)) width) }
{
    match binary_kind(op) {
        BinaryKind::InContext(arithmetic) => {
            let first = add(
                arithmetic_cost(arithmetic, width),
                cost(left, width, frame, part, sizes),
            );
            add(first, cost(right, width, frame, part, sizes))
        }
        BinaryKind::Shifted(_) => {
            let first = add(8 * u128::from(width), cost(left, width, frame, part, sizes));
            add(first, own_cost(right, frame, part, sizes))
        }
        BinaryKind::ByPair(_) => pair_cost(left, right, frame, part, sizes),
        BinaryKind::Logical(_) => {
            let widths = u128::from(left.width) + u128::from(right.width);
            let first = add(widths, own_cost(left, frame, part, sizes));
            add(first, own_cost(right, frame, part, sizes))
        }
    }
}

/// A comparison: both operands have the greater of their widths (IEEE 1800-2017, 11.4.4 and 11.4.5).
#[cycle(cost)]
pub(crate) fn pair_cost(
    left: &TExpr,
    right: &TExpr,
    frame: &Frame,
    part: Part,
    sizes: &[u32],
) -> u128
    requires left_typed { IsTyped (expr_term left.now) }
    requires right_typed { IsTyped (expr_term right.now) }
    ensures { result ≡ capped (spec.pair_cost (frame_term frame.now) part sizes.now (expr_term left.now) (expr_term right.now)) }
{
    let common = left.width.max(right.width);
    let first = add(u128::from(common), cost(left, common, frame, part, sizes));
    add(first, cost(right, common, frame, part, sizes))
}

#[cycle(cost)]
fn exprs_cost(parts: &[TExpr], frame: &Frame, part: Part, sizes: &[u32]) -> u128
    requires { AreTyped (expr_terms parts.now) }
    ensures { result ≡ capped (spec.exprs_cost (frame_term frame.now) part sizes.now (expr_terms parts.now)) }
{
    let mut sum = 0;
    for e in parts {
        sum = add(sum, own_cost(e, frame, part, sizes));
    }
    sum
}

/// The members of a set beside a left side of `width` bits (IEEE 1800-2017, 11.4.13).
#[cycle(cost)]
fn ranges_cost(set: &[TRange], width: u8, frame: &Frame, part: Part, sizes: &[u32]) -> u128
    requires typed { RangesAreTyped (range_terms set.now) }
    requires high { width ≤ 64 }
    ensures { result ≡ capped (spec.ranges_cost (frame_term frame.now) part sizes.now width (range_terms set.now)) }
{
    let mut sum = 0;
    for range in set {
        sum = add(sum, range_cost(range, width, frame, part, sizes));
    }
    sum
}

/// A member beside a left side of `width` bits. An array counts as its elements.
#[cycle(cost)]
pub(crate) fn range_cost(
    range: &TRange,
    width: u8,
    frame: &Frame,
    part: Part,
    sizes: &[u32],
) -> u128
    requires typed { RangeIsTyped (range_term range.now) }
    requires high { width ≤ 64 }
    ensures { result ≡ capped (spec.range_cost (frame_term frame.now) part sizes.now width (range_term range.now)) }
{
    match range {
        TRange::One(e) => match array_of(e, frame) {
            Some(prop) => {
                let element = u128::from(width.max(e.width)) + 1;
                u128::from(size_at(sizes, prop)) * element
            }
            None => value_cost(e, width, frame, part, sizes),
        },
        TRange::Span(low, high) => add(
            bound_cost(low, width, frame, part, sizes),
            bound_cost(high, width, frame, part, sizes),
        ),
    }
}

#[cycle(cost)]
fn bound_cost(bound: &TBound, width: u8, frame: &Frame, part: Part, sizes: &[u32]) -> u128
    requires typed { BoundIsTyped (bound_term bound.now) }
    requires high { width ≤ 64 }
    ensures { result ≡ capped (spec.bound_cost (frame_term frame.now) part sizes.now width (bound_term bound.now)) }
{
    match bound {
        TBound::Value(e) => value_cost(e, width, frame, part, sizes),
        TBound::Dollar => 0,
    }
}

/// A value that is compared with a left side of `width` bits.
#[cycle(cost)]
fn value_cost(e: &TExpr, width: u8, frame: &Frame, part: Part, sizes: &[u32]) -> u128
    requires typed { IsTyped (expr_term e.now) }
    requires high { width ≤ 64 }
    ensures { result ≡ capped (spec.value_cost (frame_term frame.now) part sizes.now width (expr_term e.now)) }
{
    let common = width.max(e.width);
    add(u128::from(common), cost(e, common, frame, part, sizes))
}

/// The array that an expression as a whole is.
pub(crate) fn array_of(e: &TExpr, frame: &Frame) -> Option<u32>
    ensures { result ≡ spec.array_of (frame_term frame.now) (property_of (expr_term e.now)) }
{
    match &e.node {
        TNode::Prop(prop) => {
            if frame.is_array(*prop) {
                Some(*prop)
            } else {
                None
            }
        }
        TNode::Number { .. }
        | TNode::Element(..)
        | TNode::Cell(..)
        | TNode::Size(..)
        | TNode::Script(_)
        | TNode::Loop(_)
        | TNode::Reduce(..)
        | TNode::Of(..)
        | TNode::Select { .. }
        | TNode::Unary { .. }
        | TNode::Binary { .. }
        | TNode::Choice { .. }
        | TNode::Inside { .. }
        | TNode::Join { .. }
        | TNode::Copies { .. }
        | TNode::Sign { .. } => None,
    }
}

/// The members of a distribution beside a left side of `width` bits, also those of weight 0 (IEEE 1800-2017, 18.5.4).
pub(crate) fn members_cost(
    members: &[TDistItem],
    width: u8,
    frame: &Frame,
    part: Part,
    sizes: &[u32],
) -> u128
    requires typed { MembersAreTyped (dist_terms members.now) }
    requires high { width ≤ 64 }
    ensures { result ≡ capped (spec.members_cost (frame_term frame.now) part sizes.now width (dist_terms members.now)) }
{
    let mut sum = 0;
    for member in members {
        sum = add(sum, range_cost(&member.range, width, frame, part, sizes));
    }
    sum
}
