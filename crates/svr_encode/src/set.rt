// The parts of a set membership: the left side, once for each width and sign, and the members beside it (IEEE 1800-2017, 11.4.13).

ghost use Rattle.std.specs.Prelude.{◌≡◌, ◌<◌, ◌∷◌, ◌++◌, [], length, map, None, IfOk, OnOk, MatchOption, ⊤};
ghost use Rattle.std.specs.List.{Contains};
ghost use Rattle.svr_typed.specs.ExprTerm.{ExprTerm, expr_term, range_term, range_terms, bound_term};
ghost use Rattle.svr_eval.specs.Typed.{IsTyped, RangesAreTyped, RangeIsTyped, BoundIsTyped};
ghost use Rattle.svr_encode.specs.declared.set.Place.{Place};
ghost use Rattle.svr_encode.specs.Parts.{part_term, in_context, range_parts, low_parts, high_parts, AreRepeats};
ghost use Rattle.svr_encode.specs.Parts as spec;
ghost use Rattle.svr_eval.specs.Value.{property_of};
ghost use Rattle.svr_encode.specs.Set.{IsSetOf};

use crate::leaves::{are_signed, common_width, property};
use crate::part::{Part, in_context};
use std::alloc::Global;
use svr_typed::{TBound, TExpr, TRange};
use svr_vector::NoMemory;

/// Where the left side stands at a width and a sign.
#[derive(Clone, Copy)]
struct Place {
    width: u8,
    signed: bool,
    at: usize,
}

/// Parts so far, and where the left side stands among them. There are at most 128 such places.
#[derive(Drop)]
struct Set<'a> {
    parts: Vec<Part<'a>>,
    lefts: Vec<Place>,
}

/// The place of the left side at a width and a sign, where it has one.
fn place_of(lefts: &[Place], width: u8, signed: bool) -> Option<usize>
    ensures { MatchOption result ⊤ (λ k. (l : Place) × Contains lefts.now l × (l.width ≡ width) × (l.signed ≡ signed) × (l.at ≡ k)) }
{
    for left in lefts {
        if left.width == width && left.signed == signed {
            return Some(left.at);
        }
    }
    None
}

/// The left side at a width and a sign behind the parts so far.
fn add_left<'a>(set: &mut Set<'a>, left: &'a TExpr, width: u8, signed: bool) -> Result<(), NoMemory>
    requires { IsSetOf (expr_term left.now) set.old }
    ensures set { OnOk result (IsSetOf (expr_term left.now) set.new) }
    ensures parts { OnOk result (map part_term set.new.parts.items ≡ map part_term set.old.parts.items ++ in_context width signed (expr_term left.now) ∷ []) }
{
    let mut part = in_context(left, width, signed);
    match place_of(&set.lefts, width, signed) {
        Some(at) => {
            part.same = Some(at);
            set.parts.push(part)?;
            Ok(())
        }
        None => {
            let at = set.parts.len();
            set.parts.push(part)?;
            set.lefts.push(Place { width, signed, at })?;
            Ok(())
        }
    }
}

/// A member at a width and a sign behind the parts so far.
fn add_member<'a>(
    set: &mut Set<'a>,
    member: &'a TExpr,
    width: u8,
    signed: bool,
) -> Result<(), NoMemory>
    ensures set { (left : ExprTerm) → IsSetOf left set.old → OnOk result (IsSetOf left set.new) }
    ensures parts { OnOk result (map part_term set.new.parts.items ≡ map part_term set.old.parts.items ++ in_context width signed (expr_term member.now) ∷ []) }
{
    set.parts.push(in_context(member, width, signed))?;
    Ok(())
}

/// A value and the left side beside it.
fn add_one<'a>(set: &mut Set<'a>, left: &'a TExpr, member: &'a TExpr) -> Result<(), NoMemory>
    requires left_typed { IsTyped (expr_term left.now) }
    requires typed { IsTyped (expr_term member.now) }
    requires set { IsSetOf (expr_term left.now) set.old }
    ensures set { OnOk result (IsSetOf (expr_term left.now) set.new) }
    ensures parts { OnOk result (map part_term set.new.parts.items ≡ map part_term set.old.parts.items ++ spec.member_parts (expr_term left.now) (property_of (expr_term member.now)) (expr_term member.now)) }
{
    let width = left.width.max(member.width);
    let signed = left.signed && member.signed;
    add_left(set, left, width, signed)?;
    match property(member) {
        Some(_) => Ok(()),
        None => add_member(set, member, width, signed),
    }
}

/// The left side and the lower bound beside it.
fn add_low<'a>(set: &mut Set<'a>, left: &'a TExpr, low: &'a TBound) -> Result<(), NoMemory>
    requires left_typed { IsTyped (expr_term left.now) }
    requires typed { BoundIsTyped (bound_term low.now) }
    requires set { IsSetOf (expr_term left.now) set.old }
    ensures set { OnOk result (IsSetOf (expr_term left.now) set.new) }
    ensures parts { OnOk result (map part_term set.new.parts.items ≡ map part_term set.old.parts.items ++ low_parts (expr_term left.now) (bound_term low.now)) }
{
    match low {
        TBound::Value(low) => {
            let width = left.width.max(low.width);
            let signed = left.signed && low.signed;
            add_left(set, left, width, signed)?;
            add_member(set, low, width, signed)
        }
        TBound::Dollar => Ok(()),
    }
}

/// The upper bound and the left side beside it.
fn add_high<'a>(set: &mut Set<'a>, left: &'a TExpr, high: &'a TBound) -> Result<(), NoMemory>
    requires left_typed { IsTyped (expr_term left.now) }
    requires typed { BoundIsTyped (bound_term high.now) }
    requires set { IsSetOf (expr_term left.now) set.old }
    ensures set { OnOk result (IsSetOf (expr_term left.now) set.new) }
    ensures parts { OnOk result (map part_term set.new.parts.items ≡ map part_term set.old.parts.items ++ high_parts (expr_term left.now) (bound_term high.now)) }
{
    match high {
        TBound::Value(high) => {
            let width = common_width(high, left);
            let signed = are_signed(high, left);
            add_member(set, high, width, signed)?;
            add_left(set, left, width, signed)
        }
        TBound::Dollar => Ok(()),
    }
}

/// The parts of a range.
fn add_range<'a>(set: &mut Set<'a>, left: &'a TExpr, range: &'a TRange) -> Result<(), NoMemory>
    requires left_typed { IsTyped (expr_term left.now) }
    requires typed { RangeIsTyped (range_term range.now) }
    requires set { IsSetOf (expr_term left.now) set.old }
    ensures set { OnOk result (IsSetOf (expr_term left.now) set.new) }
    ensures parts { OnOk result (map part_term set.new.parts.items ≡ map part_term set.old.parts.items ++ range_parts (expr_term left.now) (range_term range.now)) }
{
    match range {
        TRange::One(member) => add_one(set, left, member),
        TRange::Span(low, high) => {
            add_low(set, left, low)?;
            add_high(set, left, high)
        }
    }
}

/// The parts of a set membership, range by range.
pub(crate) fn set_parts<'a>(
    alloc: Global,
    ranges: &'a [TRange],
    left: &'a TExpr,
) -> Result<Vec<Part<'a>>, NoMemory>
    requires left_typed { IsTyped (expr_term left.now) }
    requires typed { RangesAreTyped (range_terms ranges.now) }
    ensures parts { IfOk result (λ ps. map part_term ps.items ≡ spec.set_parts (expr_term left.now) (range_terms ranges.now)) }
    ensures repeats { IfOk result (λ ps. AreRepeats [] ps.items) }
{
    let mut set = Set {
        parts: Vec::new(alloc),
        lefts: Vec::new(alloc),
    };
    for range in ranges {
        add_range(&mut set, left, range)?;
    }
    let Set { parts, lefts: _ } = set;
    Ok(parts)
}
