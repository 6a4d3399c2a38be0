// What an expression mentions that a phase looks for.

ghost use Rattle.std.specs.Prelude.{◌≡◌};
ghost use Rattle.svr_typed.specs.ExprTerm.{expr_term, expr_terms, range_term, range_terms, bound_term};
ghost use Rattle.svr_typed.specs.ItemTerm.{dist_term, dist_terms};
ghost use Rattle.svr_frame.specs.Frame.{frame_term};
ghost use Rattle.svr_frame.specs.Finds as spec;

use crate::frame::Frame;
use crate::part::Part;
use svr_typed::{TBound, TDistItem, TExpr, TNode, TRange};

/// What is looked for in an expression.
#[derive(Clone, Copy)]
pub enum Sought {
    /// A property that is random in this call (IEEE 1800-2017, 18.4).
    Random,
    /// A random property that is not cyclic (IEEE 1800-2017, 18.4.2).
    NotCyclic,
    /// An element of a random array, or all of them.
    RandomElement,
    /// A size that this call chooses.
    FreeSize,
    /// A property that is random in some call, other than by its size.
    CanBeRandom,
}

/// Whether a node that is the property is one.
fn finds_property(prop: u32, sought: Sought, frame: &Frame) -> bool
    ensures { result ≡ spec.finds_property (frame_term frame.now) sought prop }
{
    match sought {
        Sought::Random => frame.is_random(prop),
        Sought::NotCyclic => frame.is_random(prop) && !frame.is_cyclic(prop),
        Sought::RandomElement => frame.is_array(prop) && frame.is_random(prop),
        Sought::FreeSize => false,
        Sought::CanBeRandom => frame.can_be_random(prop),
    }
}

/// Whether an element of the property is one, or all of them are.
fn finds_element(prop: u32, sought: Sought, frame: &Frame) -> bool
    ensures { result ≡ spec.finds_element (frame_term frame.now) sought prop }
{
    match sought {
        Sought::Random | Sought::RandomElement => frame.is_random(prop),
        Sought::NotCyclic => frame.is_random(prop) && !frame.is_cyclic(prop),
        Sought::FreeSize => false,
        Sought::CanBeRandom => frame.can_be_random(prop),
    }
}

/// Whether the size of the property is one.
pub fn finds_size(prop: u32, sought: Sought, frame: &Frame) -> bool
    ensures { result ≡ spec.finds_size (frame_term frame.now) sought prop }
{
    match sought {
        Sought::Random => frame.is_random(prop),
        Sought::NotCyclic => frame.is_random(prop) && !frame.is_cyclic(prop),
        Sought::RandomElement | Sought::CanBeRandom => false,
        Sought::FreeSize => frame.has_free_size(prop),
    }
}

/// Whether an expression, its indexes included, reads what is sought.
#[cycle(finds)]
pub fn finds(e: &TExpr, sought: Sought, frame: &Frame) -> bool
    ensures { result ≡ spec.finds (frame_term frame.now) sought (expr_term e.now) }
{
    match &e.node {
        TNode::Number { .. } | TNode::Script(_) | TNode::Loop(_) => false,
        TNode::Prop(prop) => finds_property(*prop, sought, frame),
        TNode::Element(prop, index) => {
            finds_element(*prop, sought, frame) || finds(index.get(), sought, frame)
        }
        TNode::Cell(prop, _, first, second) => {
            finds_element(*prop, sought, frame)
                || finds(first.get(), sought, frame)
                || finds(second.get(), sought, frame)
        }
        TNode::Size(prop, _) => finds_size(*prop, sought, frame),
        TNode::Reduce(prop, _, body) => {
            finds_element(*prop, sought, frame) || finds(body.get(), sought, frame)
        }
        TNode::Of(_, part) => finds(part.get(), sought, frame),
        TNode::Select {
            base,
            first,
            last,
            ..
        } => {
            let front = finds(base.get(), sought, frame) || finds(first.get(), sought, frame);
            match last {
                None => front,
                Some(last) => front || finds(last.get(), sought, frame),
            }
        }
        TNode::Unary { arg, .. } => finds(arg.get(), sought, frame),
        TNode::Binary { left, right, .. } => {
            finds(left.get(), sought, frame) || finds(right.get(), sought, frame)
        }
        TNode::Choice { test, yes, no } => {
            finds(test.get(), sought, frame)
                || finds(yes.get(), sought, frame)
                || finds(no.get(), sought, frame)
        }
        TNode::Inside { left, set } => {
            finds(left.get(), sought, frame) || finds_in_ranges(set.as_slice(), sought, frame)
        }
        TNode::Join { parts } => finds_in_exprs(parts.as_slice(), sought, frame),
        TNode::Copies { count, parts } => {
            finds(count.get(), sought, frame) || finds_in_exprs(parts.as_slice(), sought, frame)
        }
        TNode::Sign { arg, .. } => finds(arg.get(), sought, frame),
    }
}

#[cycle(finds)]
fn finds_in_exprs(parts: &[TExpr], sought: Sought, frame: &Frame) -> bool
    ensures { result ≡ spec.finds_in_exprs (frame_term frame.now) sought (expr_terms parts.now) }
{
    for part in parts {
        if finds(part, sought, frame) {
            return true;
        }
    }
    false
}

#[cycle(finds)]
fn finds_in_ranges(set: &[TRange], sought: Sought, frame: &Frame) -> bool
    ensures { result ≡ spec.finds_in_ranges (frame_term frame.now) sought (range_terms set.now) }
{
    for range in set {
        if finds_in_range(range, sought, frame) {
            return true;
        }
    }
    false
}

/// Whether a member of a set reads what is sought.
#[cycle(finds)]
pub fn finds_in_range(range: &TRange, sought: Sought, frame: &Frame) -> bool
    ensures { result ≡ spec.finds_in_range (frame_term frame.now) sought (range_term range.now) }
{
    match range {
        TRange::One(e) => finds(e, sought, frame),
        TRange::Span(low, high) => {
            finds_in_bound(low, sought, frame) || finds_in_bound(high, sought, frame)
        }
    }
}

#[cycle(finds)]
fn finds_in_bound(bound: &TBound, sought: Sought, frame: &Frame) -> bool
    ensures { result ≡ spec.finds_in_bound (frame_term frame.now) sought (bound_term bound.now) }
{
    match bound {
        TBound::Value(e) => finds(e, sought, frame),
        TBound::Dollar => false,
    }
}

/// Whether a member of a distribution reads it, its weight included (IEEE 1800-2017, 18.5.4).
fn finds_in_member(member: &TDistItem, sought: Sought, frame: &Frame) -> bool
    ensures { result ≡ spec.finds_in_member (frame_term frame.now) sought (dist_term member.now) }
{
    let ranged = finds_in_range(&member.range, sought, frame);
    match &member.weight {
        None => ranged,
        Some((_, weight)) => ranged || finds(weight, sought, frame),
    }
}

/// Whether some member of a distribution reads it.
pub fn finds_in_members(members: &[TDistItem], sought: Sought, frame: &Frame) -> bool
    ensures { result ≡ spec.finds_in_members (frame_term frame.now) sought (dist_terms members.now) }
{
    for member in members {
        if finds_in_member(member, sought, frame) {
            return true;
        }
    }
    false
}

/// Whether a range mentions a property that is random in this call (IEEE 1800-2017, 18.4).
pub fn mentions_random(range: &TRange, frame: &Frame) -> bool
    ensures { result ≡ spec.mentions_random (frame_term frame.now) (range_term range.now) }
{
    finds_in_range(range, Sought::Random, frame)
}

/// Whether an index holds a property that can be random other than by a size, or in the phase of sizes a size that the call chooses: its value is one of many.
pub fn is_open(index: &TExpr, frame: &Frame, part: Part) -> bool
    ensures { result ≡ spec.is_found_open (frame_term frame.now) part (expr_term index.now) }
{
    let varies = finds(index, Sought::CanBeRandom, frame);
    match part {
        Part::Randc | Part::All => varies,
        Part::Sizes => finds(index, Sought::FreeSize, frame) || varies,
    }
}

/// Whether an expression holds a size that the phase looks for.
pub fn holds_free_size(e: &TExpr, frame: &Frame, part: Part) -> bool
    ensures { result ≡ spec.is_found_sized (frame_term frame.now) part (expr_term e.now) }
{
    match part {
        Part::Randc | Part::All => false,
        Part::Sizes => finds(e, Sought::FreeSize, frame),
    }
}
