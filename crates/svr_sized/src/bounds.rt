// The hard items of the phase with the cap on each free size.

ghost use Rattle.std.specs.Prelude.{◌≡◌, ◌≤◌, map, length, IfOk};
ghost use Rattle.std.specs.List.{flat_map};
ghost use Rattle.svr_typed.specs.ExprTerm.{expr_term};
ghost use Rattle.svr_limits.specs.declared.limit.TheConstants.{PROPERTY_LIMIT};
ghost use Rattle.svr_frame.specs.declared.part.Part.TheVariants.{Sizes};
ghost use Rattle.svr_frame.specs.Frame.{frame_term};
ghost use Rattle.svr_frame.specs.Phases.{domain_item, unknowns_of, hard_of, capped_hard_of};
ghost use Rattle.svr_frame.specs.Sound.{IsSound};
ghost use Rattle.svr_phase.specs.Spent.{closed_at};
ghost use Rattle.svr_sized.specs.Bounds as spec;

use crate::cut::put_before_last;
use crate::memory::NoMemory;
use sqlite_items::Items;
use std::alloc::Global;
use svr_expand::unknowns;
use svr_frame::{Frame, Part, Slot};
use svr_operator::BinOp;
use svr_typed::{TExpr, TNode};

/// `d.size() <= cap`
fn at_most(alloc: Global, cap: u32, prop: u32) -> Result<TExpr, NoMemory>
    ensures { IfOk result (λ e. expr_term e ≡ spec.at_most_expr cap prop) }
{
    let size = TExpr::new(32, true, TNode::size(prop, 1));
    let most = TExpr::new(32, true, TNode::number(u64::from(cap), false));
    Ok(TExpr::new(1, false, TNode::binary(alloc, BinOp::AtMost, size, most)?))
}

/// `d.size() <= cap` for each size that the call chooses.
fn caps_of(alloc: Global, frame: &Frame, cap: u32) -> Result<Items<TExpr>, NoMemory>
    requires { length (frame_term frame.now).class.props ≤ PROPERTY_LIMIT }
    ensures { IfOk result (λ caps. map expr_term caps ≡ spec.cap_exprs (frame_term frame.now) cap) }
{
    let mut caps = Items::new(alloc);
    for prop in 0..frame.class.props.len() as u32 {
        if frame.has_free_size(prop) {
            let bound = at_most(alloc, cap, prop)?;
            caps.push(bound)?;
        }
    }
    Ok(caps)
}

/// 1 where there is a value.
fn one_if(value: Option<u32>) -> usize
    ensures { result ≡ spec.one_if value }
{
    match value {
        None => 0,
        Some(_) => 1,
    }
}

/// How many items of its own an unknown has: an enum takes only its members.
fn own_items(frame: &Frame, slot: Slot) -> usize
    ensures { result ≡ length (domain_item (frame_term frame.now) slot) }
{
    match slot {
        Slot::Scalar(prop) | Slot::Element(prop, _) => one_if(frame.enum_of(prop)),
        Slot::Size(_) => 0,
    }
}

/// How many all of them have.
fn all_own_items(frame: &Frame, slots: &[Slot]) -> usize
    ensures { result ≡ length (flat_map (domain_item (frame_term frame.now)) slots.now) }
{
    let mut count = 0;
    for slot in slots {
        count += own_items(frame, *slot);
    }
    count
}

/// How many domain items the phase has.
fn domain_count(alloc: Global, frame: &Frame) -> Result<usize, NoMemory>
    requires { IsSound (frame_term frame.now) }
    ensures { IfOk result (λ count. count ≡ length (flat_map (domain_item (frame_term frame.now)) (unknowns_of (frame_term frame.now) Sizes (frame_term frame.now).state.sizes))) }
{
    let sizes = frame.state.sizes.as_slice();
    let slots = unknowns(alloc, frame, Part::Sizes, sizes)?;
    Ok(all_own_items(frame, slots.as_slice()))
}

/// The hard items of the phase at the sizes of the state, and the cap on each free size behind the other bounds.
pub(crate) fn capped(
    alloc: Global,
    frame: &Frame,
    hard: Items<TExpr>,
    cap: u32,
) -> Result<Items<TExpr>, NoMemory>
    requires sound { IsSound (frame_term frame.now) }
    requires hard { map expr_term hard ≡ closed_at (frame_term frame.now) (frame_term frame.now).state.sizes (hard_of (frame_term frame.now) Sizes (frame_term frame.now).state.sizes) }
    ensures { IfOk result (λ all. map expr_term all ≡ closed_at (frame_term frame.now) (frame_term frame.now).state.sizes (capped_hard_of (frame_term frame.now) cap (frame_term frame.now).state.sizes)) }
{
    let domains = domain_count(alloc, frame)?;
    let caps = caps_of(alloc, frame, cap)?;
    let all = hard.len();
    let bounds = caps.len();
    let active = all - domains - bounds;
    put_before_last(alloc, hard, active, caps)
}
