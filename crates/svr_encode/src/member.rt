// Set membership over the vectors of the left side and of the members (IEEE 1800-2017, 11.4.13).

ghost use Rattle.std.specs.Prelude.{◌≡◌, ◌≤◌, ◌&&◌, ◌++◌, length, IfOk};
ghost use Rattle.svr_gate.specs.Circuit.{Extends, Tells, GivesNumber};
ghost use Rattle.svr_typed.specs.ExprTerm.{ExprTerm, expr_term, range_term, range_terms, bound_term};
ghost use Rattle.svr_eval.specs.Typed.{IsTyped, RangesAreTyped, RangeIsTyped, BoundIsTyped};
ghost use Rattle.svr_eval.specs.Value as spec;
ghost use Rattle.svr_inputs.specs.Inputs.{AreInputs, read_at};
ghost use Rattle.svr_inputs.specs.Served.{IsServed, RangeIsServed, RangesAreServed, MemberIsServed};
ghost use Rattle.svr_encode.specs.Parts.{member_parts, low_parts, high_parts, range_parts, set_parts};
ghost use Rattle.svr_encode.specs.Given.{AreGiven};

use crate::given::{Given, value_at};
use crate::leaves::{are_signed, is_no_less, property};
use std::alloc::Global;
use svr_arith::equal;
use svr_chain::Lit;
use svr_gate::Builder;
use svr_inputs::is_some_element;
use svr_typed::{TBound, TExpr, TRange};
use svr_vector::{Gate, NoMemory, constant, of_bits, truth_at};

/// How many parts a bound has, beside any left side.
fn bound_count(bound: &TBound) -> usize
    ensures low { (left : ExprTerm) → length (low_parts left (bound_term bound.now)) ≡ result }
    ensures high { (left : ExprTerm) → length (high_parts left (bound_term bound.now)) ≡ result }
    ensures few { result ≤ 2 }
{
    match bound {
        TBound::Value(_) => 2,
        TBound::Dollar => 0,
    }
}

/// How many parts a range has, beside any left side.
fn range_count(range: &TRange) -> usize
    ensures { (left : ExprTerm) → length (range_parts left (range_term range.now)) ≡ result }
{
    match range {
        TRange::One(member) => match property(member) {
            Some(_) => 1,
            None => 2,
        },
        TRange::Span(low, high) => bound_count(low) + bound_count(high),
    }
}

/// Whether the left side equals the member, or one of its elements where it is an array.
fn equals_member(
    alloc: Global,
    b: &mut Builder,
    given: &Given<'_>,
    member: &TExpr,
    left: &TExpr,
    at: usize,
) -> Result<Lit, NoMemory>
    requires inputs { AreInputs given.now.inputs.now }
    requires room { given.now.inputs.now.count ≤ b.old.vars }
    requires left_typed { IsTyped (expr_term left.now) }
    requires typed { IsTyped (expr_term member.now) }
    requires ready { IsServed given.now.inputs.now (length given.now.env.now) (expr_term member.now) }
    requires fixed { MemberIsServed given.now.inputs.now (spec.property_of (expr_term member.now)) }
    requires parts { AreGiven b.old given.now at (member_parts (expr_term left.now) (spec.property_of (expr_term member.now)) (expr_term member.now)) }
    ensures extends { Extends b.old b.new }
    ensures value { IfOk result (λ told. Tells b.new told (λ v. spec.equals_member (read_at given.now.inputs.now v) (spec.operand_of (read_at given.now.inputs.now v) given.now.env.now (expr_term left.now)) (spec.property_of (expr_term member.now)) (spec.operand_of (read_at given.now.inputs.now v) given.now.env.now (expr_term member.now)))) }
{
    match property(member) {
        Some(prop) => {
            let x = value_at(given.values, at);
            let both = are_signed(left, member);
            is_some_element(alloc, b, given.inputs, x, prop, member.width, both)
        }
        None => {
            let x = value_at(given.values, at);
            Ok(equal(b, x, value_at(given.values, at + 1))?)
        }
    }
}

/// Whether the left side is no less than the bound.
fn is_from(
    b: &mut Builder,
    given: &Given<'_>,
    bound: &TBound,
    left: &TExpr,
    at: usize,
) -> Result<Lit, NoMemory>
    requires left_typed { IsTyped (expr_term left.now) }
    requires typed { BoundIsTyped (bound_term bound.now) }
    requires parts { AreGiven b.old given.now at (low_parts (expr_term left.now) (bound_term bound.now)) }
    ensures extends { Extends b.old b.new }
    ensures value { IfOk result (λ told. Tells b.new told (λ v. spec.is_from (read_at given.now.inputs.now v) given.now.env.now (spec.operand_of (read_at given.now.inputs.now v) given.now.env.now (expr_term left.now)) (bound_term bound.now))) }
{
    match bound {
        TBound::Value(low) => {
            let x = value_at(given.values, at);
            let y = value_at(given.values, at + 1);
            is_no_less(b, x, y, are_signed(left, low))
        }
        TBound::Dollar => constant(b, true),
    }
}

/// Whether the left side is no more than the bound.
fn is_up_to(
    b: &mut Builder,
    given: &Given<'_>,
    bound: &TBound,
    left: &TExpr,
    at: usize,
) -> Result<Lit, NoMemory>
    requires left_typed { IsTyped (expr_term left.now) }
    requires typed { BoundIsTyped (bound_term bound.now) }
    requires parts { AreGiven b.old given.now at (high_parts (expr_term left.now) (bound_term bound.now)) }
    ensures extends { Extends b.old b.new }
    ensures value { IfOk result (λ told. Tells b.new told (λ v. spec.is_up_to (read_at given.now.inputs.now v) given.now.env.now (spec.operand_of (read_at given.now.inputs.now v) given.now.env.now (expr_term left.now)) (bound_term bound.now))) }
{
    match bound {
        TBound::Value(high) => {
            let x = value_at(given.values, at);
            let y = value_at(given.values, at + 1);
            is_no_less(b, x, y, are_signed(high, left))
        }
        TBound::Dollar => constant(b, true),
    }
}

/// Whether the left side is between two bounds.
fn is_between(
    b: &mut Builder,
    given: &Given<'_>,
    low: &TBound,
    high: &TBound,
    left: &TExpr,
    at: usize,
) -> Result<Lit, NoMemory>
    requires left_typed { IsTyped (expr_term left.now) }
    requires low_typed { BoundIsTyped (bound_term low.now) }
    requires high_typed { BoundIsTyped (bound_term high.now) }
    requires parts { AreGiven b.old given.now at (low_parts (expr_term left.now) (bound_term low.now) ++ high_parts (expr_term left.now) (bound_term high.now)) }
    ensures extends { Extends b.old b.new }
    ensures value { IfOk result (λ told. Tells b.new told (λ v. spec.is_from (read_at given.now.inputs.now v) given.now.env.now (spec.operand_of (read_at given.now.inputs.now v) given.now.env.now (expr_term left.now)) (bound_term low.now) && spec.is_up_to (read_at given.now.inputs.now v) given.now.env.now (spec.operand_of (read_at given.now.inputs.now v) given.now.env.now (expr_term left.now)) (bound_term high.now))) }
{
    let from = is_from(b, given, low, left, at)?;
    let to = is_up_to(b, given, high, left, at + bound_count(low))?;
    of_bits(b, Gate::Both, from, to)
}

/// Whether the left side is in the range.
fn fits(
    alloc: Global,
    b: &mut Builder,
    given: &Given<'_>,
    range: &TRange,
    left: &TExpr,
    at: usize,
) -> Result<Lit, NoMemory>
    requires inputs { AreInputs given.now.inputs.now }
    requires room { given.now.inputs.now.count ≤ b.old.vars }
    requires left_typed { IsTyped (expr_term left.now) }
    requires typed { RangeIsTyped (range_term range.now) }
    requires ready { RangeIsServed given.now.inputs.now (length given.now.env.now) (range_term range.now) }
    requires parts { AreGiven b.old given.now at (range_parts (expr_term left.now) (range_term range.now)) }
    ensures extends { Extends b.old b.new }
    ensures value { IfOk result (λ told. Tells b.new told (λ v. spec.fits (read_at given.now.inputs.now v) given.now.env.now (spec.operand_of (read_at given.now.inputs.now v) given.now.env.now (expr_term left.now)) (range_term range.now))) }
{
    match range {
        TRange::One(member) => equals_member(alloc, b, given, member, left, at),
        TRange::Span(low, high) => is_between(b, given, low, high, left, at),
    }
}

/// Whether the left side is in some range of the set.
fn fits_some(
    alloc: Global,
    b: &mut Builder,
    given: &Given<'_>,
    set: &[TRange],
    left: &TExpr,
) -> Result<Lit, NoMemory>
    requires inputs { AreInputs given.now.inputs.now }
    requires room { given.now.inputs.now.count ≤ b.old.vars }
    requires left_typed { IsTyped (expr_term left.now) }
    requires typed { RangesAreTyped (range_terms set.now) }
    requires ready { RangesAreServed given.now.inputs.now (length given.now.env.now) (range_terms set.now) }
    requires parts { AreGiven b.old given.now 0 (set_parts (expr_term left.now) (range_terms set.now)) }
    ensures extends { Extends b.old b.new }
    ensures value { IfOk result (λ told. Tells b.new told (λ v. spec.fits_some (read_at given.now.inputs.now v) given.now.env.now (spec.operand_of (read_at given.now.inputs.now v) given.now.env.now (expr_term left.now)) (range_terms set.now))) }
{
    let mut found = constant(b, false)?;
    let mut at = 0;
    for range in set {
        let one = fits(alloc, b, given, range, left, at)?;
        found = of_bits(b, Gate::Either, found, one)?;
        at += range_count(range);
    }
    Ok(found)
}

/// Set membership, at the width and the sign of a context.
pub(crate) fn inside(
    alloc: Global,
    b: &mut Builder,
    given: &Given<'_>,
    set: &[TRange],
    left: &TExpr,
    width: u8,
    signed: bool,
) -> Result<Vec<Lit>, NoMemory>
    requires inputs { AreInputs given.now.inputs.now }
    requires room { given.now.inputs.now.count ≤ b.old.vars }
    requires left_typed { IsTyped (expr_term left.now) }
    requires typed { RangesAreTyped (range_terms set.now) }
    requires ready { RangesAreServed given.now.inputs.now (length given.now.env.now) (range_terms set.now) }
    requires parts { AreGiven b.old given.now 0 (set_parts (expr_term left.now) (range_terms set.now)) }
    requires low { 1 ≤ width }
    requires high { width ≤ 64 }
    ensures extends { Extends b.old b.new }
    ensures value { IfOk result (λ ls. GivesNumber b.new ls.items width (λ v. spec.truth width signed (spec.fits_some (read_at given.now.inputs.now v) given.now.env.now (spec.operand_of (read_at given.now.inputs.now v) given.now.env.now (expr_term left.now)) (range_terms set.now)))) }
{
    let found = fits_some(alloc, b, given, set, left)?;
    truth_at(alloc, b, found, width, signed)
}
