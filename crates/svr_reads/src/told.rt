// What an expression reads of a property.

ghost use Rattle.std.specs.Prelude.{◌≡◌, ◌==◌, false, map, slice_index_or};
ghost use Rattle.svr_typed.specs.declared.class.Prop.{Prop};
ghost use Rattle.svr_typed.specs.ExprTerm.{expr_term, expr_terms, range_term, range_terms, bound_term};
ghost use Rattle.svr_frame.specs.Reads.{reads_number, reads_element, reads_size};
ghost use Rattle.svr_reads.specs.Tells as spec;

use svr_typed::{Prop, TBound, TExpr, TNode, TRange};

/// A kind of what expressions read.
#[derive(Clone, Copy)]
pub(crate) enum Told<'a> {
    /// The number of this property.
    Number(u32),
    /// An element of this property, or the whole.
    Element(u32),
    /// The size of this property.
    Size(u32),
    /// One of these properties that is random in some call, other than by its size.
    Varying(&'a [Prop]),
}

/// What an expression, its indexes included, reads of a property: its number, as one reads a scalar; an element of it, or the whole array; its size. At a node that is the property the first two are true.
#[derive(Clone, Copy)]
pub struct PropertyReads {
    pub number: bool,
    pub element: bool,
    pub size: bool,
}

/// Whether a property is random in some call of the script.
fn can_be_random(props: &[Prop], prop: u32) -> bool
    ensures { result ≡ slice_index_or (map (λ (x : Prop). x.can) props.now) prop false }
{
    match props.get(prop as usize) {
        Some(declared) => declared.can,
        None => false,
    }
}

/// Whether a node that is the property is of the kind.
fn tells_property(prop: u32, told: &Told<'_>) -> bool
    ensures { result ≡ spec.tells_property told.now prop }
{
    match told {
        Told::Number(own) | Told::Element(own) => prop == *own,
        Told::Size(_) => false,
        Told::Varying(props) => can_be_random(props, prop),
    }
}

/// Whether an element of the property, or all of them, is of the kind.
fn tells_element(prop: u32, told: &Told<'_>) -> bool
    ensures { result ≡ spec.tells_element told.now prop }
{
    match told {
        Told::Element(own) => prop == *own,
        Told::Number(_) | Told::Size(_) => false,
        Told::Varying(props) => can_be_random(props, prop),
    }
}

/// Whether the size of the property is of the kind.
fn tells_size(prop: u32, told: &Told<'_>) -> bool
    ensures { result ≡ spec.tells_size told.now prop }
{
    match told {
        Told::Size(own) => prop == *own,
        Told::Number(_) | Told::Element(_) | Told::Varying(_) => false,
    }
}

/// Whether an expression, its indexes included, reads something of the kind.
#[cycle(tells)]
pub(crate) fn tells(e: &TExpr, told: &Told<'_>) -> bool
    ensures { result ≡ spec.tells told.now (expr_term e.now) }
{
    match &e.node {
        TNode::Number { .. } | TNode::Script(_) | TNode::Loop(_) => false,
        TNode::Prop(prop) => tells_property(*prop, told),
        TNode::Element(prop, index) => { tells_element(*prop, told) || tells(index.get(), told) }
        TNode::Cell(prop, _, first, second) => {
            tells_element(*prop, told) || tells(first.get(), told) || tells(second.get(), told)
        }
        TNode::Size(prop, _) => tells_size(*prop, told),
        TNode::Reduce(prop, _, body) => { tells_element(*prop, told) || tells(body.get(), told) }
        TNode::Of(_, part) => tells(part.get(), told),
        TNode::Select {
            base,
            first,
            last,
            ..
        } => {
            let front = tells(base.get(), told) || tells(first.get(), told);
            match last {
                None => front,
                Some(last) => front || tells(last.get(), told),
            }
        }
        TNode::Unary { arg, .. } => tells(arg.get(), told),
        TNode::Binary { left, right, .. } => { tells(left.get(), told) || tells(right.get(), told) }
        TNode::Choice { test, yes, no } => {
            tells(test.get(), told) || tells(yes.get(), told) || tells(no.get(), told)
        }
        TNode::Inside { left, set } => {
            tells(left.get(), told) || tells_in_ranges(set.as_slice(), told)
        }
        TNode::Join { parts } => tells_in_exprs(parts.as_slice(), told),
        TNode::Copies { count, parts } => {
            tells(count.get(), told) || tells_in_exprs(parts.as_slice(), told)
        }
        TNode::Sign { arg, .. } => tells(arg.get(), told),
    }
}

#[cycle(tells)]
fn tells_in_exprs(parts: &[TExpr], told: &Told<'_>) -> bool
    ensures { result ≡ spec.tells_in_exprs told.now (expr_terms parts.now) }
{
    for part in parts {
        if tells(part, told) {
            return true;
        }
    }
    false
}

#[cycle(tells)]
fn tells_in_ranges(set: &[TRange], told: &Told<'_>) -> bool
    ensures { result ≡ spec.tells_in_ranges told.now (range_terms set.now) }
{
    for range in set {
        if tells_in_range(range, told) {
            return true;
        }
    }
    false
}

/// Whether a member of a set reads something of the kind.
#[cycle(tells)]
fn tells_in_range(range: &TRange, told: &Told<'_>) -> bool
    ensures { result ≡ spec.tells_in_range told.now (range_term range.now) }
{
    match range {
        TRange::One(e) => tells(e, told),
        TRange::Span(low, high) => { tells_in_bound(low, told) || tells_in_bound(high, told) }
    }
}

#[cycle(tells)]
fn tells_in_bound(bound: &TBound, told: &Told<'_>) -> bool
    ensures { result ≡ spec.tells_in_bound told.now (bound_term bound.now) }
{
    match bound {
        TBound::Value(e) => tells(e, told),
        TBound::Dollar => false,
    }
}

/// What an expression reads of a property.
pub fn reads(e: &TExpr, prop: u32) -> PropertyReads
    ensures number { result.number ≡ reads_number (expr_term e.now) prop }
    ensures element { result.element ≡ reads_element (expr_term e.now) prop }
    ensures size { result.size ≡ reads_size (expr_term e.now) prop }
{
    PropertyReads {
        number: tells(e, &Told::Number(prop)),
        element: tells(e, &Told::Element(prop)),
        size: tells(e, &Told::Size(prop)),
    }
}
