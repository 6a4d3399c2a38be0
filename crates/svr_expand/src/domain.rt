// Items of the unknowns themselves: an enum takes only its members (IEEE 1800-2017, 6.19.3), and a size is not negative.

ghost use Rattle.std.specs.Prelude.{◌≡◌, ◌++◌, ◌∷◌, ◌≤◌, [], false, OnOk, IfOk, length, map};
ghost use Rattle.svr_typed.specs.ExprTerm.{RangeTerms, typed, inside, expr_term, node_term, range_terms};
ghost use Rattle.svr_limits.specs.declared.limit.TheConstants.{PROPERTY_LIMIT};
ghost use Rattle.svr_frame.specs.Frame.{frame_term, members_of, members_of_enum};
ghost use Rattle.svr_expand.specs.Domains as spec;

use crate::guards::binary;
use crate::held::let_go;
use sqlite_items::Items;
use std::alloc::Global;
use svr_closed::index_number;
use svr_frame::{Frame, Slot};
use svr_operator::BinOp;
use svr_typed::{NoMemory, TExpr, TNode, TRange};

/// The members of an enum as numbers of a property.
#[tactic(auto, using(crate::proofs::Enums::member_more))]
fn member_ranges(
    alloc: Global,
    frame: &Frame,
    prop: u32,
    named: u32,
) -> Result<Items<TRange>, NoMemory>
    ensures { IfOk result (λ r. range_terms r ≡ spec.member_ranges (frame_term frame.now) prop (members_of_enum (frame_term frame.now) named)) }
{
    let mut ranges = Items::new(alloc);
    for member in 0..frame.enum_size(named) {
        let number = TNode::number(frame.enum_value(named, member), false);
        let value = TExpr::new(frame.width(prop), frame.is_signed(prop), number);
        ranges.push(TRange::one(value))?;
    }
    Ok(ranges)
}

/// Adds that an expression is one of these members, where they are there.
fn add_test(
    alloc: Global,
    left: TExpr,
    members: Result<Items<TRange>, NoMemory>,
    out: &mut Items<TExpr>,
) -> Result<(), NoMemory>
    ensures { (rs : RangeTerms) → IfOk members (λ m. range_terms m ≡ rs) → OnOk result (map expr_term out.new ≡ map expr_term out.old ++ typed 1 false (inside (expr_term left) rs) ∷ []) }
{
    match members {
        Err(fault) => Err(let_go(left, fault)),
        Ok(members) => {
            out.push(TExpr::new(1, false, TNode::inside(alloc, left, members)?))?;
            Ok(())
        }
    }
}

/// Adds that a number of a property is one of the members of its enum, where it has one.
fn add_among(
    alloc: Global,
    frame: &Frame,
    prop: u32,
    node: TNode,
    out: &mut Items<TExpr>,
) -> Result<(), NoMemory>
    ensures { OnOk result (map expr_term out.new ≡ map expr_term out.old ++ spec.among_exprs (frame_term frame.now) prop (node_term node) (members_of (frame_term frame.now) prop)) }
{
    match frame.enum_of(prop) {
        None => {
            drop(node);
            Ok(())
        }
        Some(named) => {
            let left = TExpr::new(frame.width(prop), frame.is_signed(prop), node);
            let members = member_ranges(alloc, frame, prop, named);
            add_test(alloc, left, members, out)
        }
    }
}

/// Adds that an unknown of an enum is one of its members.
fn add_slot_item(
    alloc: Global,
    frame: &Frame,
    slot: Slot,
    out: &mut Items<TExpr>,
) -> Result<(), NoMemory>
    ensures { OnOk result (map expr_term out.new ≡ map expr_term out.old ++ spec.slot_exprs (frame_term frame.now) slot) }
{
    match slot {
        Slot::Scalar(prop) => add_among(alloc, frame, prop, TNode::prop(prop), out),
        Slot::Element(prop, at) => {
            let node = TNode::element(alloc, prop, index_number(at))?;
            add_among(alloc, frame, prop, node, out)
        }
        Slot::Size(_) => Ok(()),
    }
}

/// Adds that the unknowns of enums are among their members.
#[tactic(auto, using(crate::proofs::Joined::found_after))]
pub(crate) fn add_slot_items(
    alloc: Global,
    frame: &Frame,
    slots: &[Slot],
    out: &mut Items<TExpr>,
) -> Result<(), NoMemory>
    ensures { OnOk result (map expr_term out.new ≡ map expr_term out.old ++ spec.all_slot_exprs (frame_term frame.now) slots.now) }
{
    for slot in slots {
        add_slot_item(alloc, frame, *slot, out)?;
    }
    Ok(())
}

/// `d.size() >= 0`
fn not_negative(alloc: Global, prop: u32) -> Result<TExpr, NoMemory>
    ensures { IfOk result (λ r. expr_term r ≡ spec.not_negative_expr prop) }
{
    let size = TExpr::new(32, true, TNode::size(prop, 1));
    binary(alloc, BinOp::AtLeast, size, index_number(0))
}

/// Adds `d.size() >= 0` for each size that the call chooses.
pub(crate) fn add_size_items(
    alloc: Global,
    frame: &Frame,
    out: &mut Items<TExpr>,
) -> Result<(), NoMemory>
    requires { length (frame_term frame.now).class.props ≤ PROPERTY_LIMIT }
    ensures { OnOk result (map expr_term out.new ≡ map expr_term out.old ++ spec.size_exprs (frame_term frame.now)) }
{
    for prop in 0..frame.class.props.len() as u32 {
        if frame.has_free_size(prop) {
            let bound = not_negative(alloc, prop)?;
            out.push(bound)?;
        }
    }
    Ok(())
}
