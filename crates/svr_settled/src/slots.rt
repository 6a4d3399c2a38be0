// Each unknown takes its wanted number where it can.

ghost use Rattle.std.specs.Prelude.{◌≡◌, ◌<◌, ℕ, true, List, [], map, length, slice_index, slice_index_or, IfOk, OnOk};
ghost use Rattle.std.specs.List.{All};
ghost use Rattle.svr_typed.specs.ExprTerm.{expr_term};
ghost use Rattle.svr_eval.specs.Reading.{Reading, reading_of};
ghost use Rattle.svr_eval.specs.Typed.{IsTyped, CanRead};
ghost use Rattle.svr_frame.specs.declared.part.Part.TheVariants.{All as Whole};
ghost use Rattle.svr_frame.specs.Frame.{frame_term};
ghost use Rattle.svr_frame.specs.Phases.{unknowns_of};
ghost use Rattle.svr_frame.specs.Satisfaction.{AreFixed, IsAssignment};
ghost use Rattle.svr_frame.specs.Sound.{IsSound, SizesFit};
ghost use Rattle.svr_values.specs.Needed.{needed_of};
ghost use Rattle.svr_settled.specs.Steps.{with_number, with_wanted, hold, step_with, step, steps, IsWithin};

use crate::place::put;
use std::alloc::Global;
use svr_eval::Assign;
use svr_frame::{Frame, Slot};
use svr_typed::{NoMemory, TExpr};
use svr_values::needed_fault;

/// Whether the items that are needed hold. They are looked at from the one on that did not hold when some did not before, and then from the front: it, or one not far behind it, is mostly the next that does not hold.
fn hold_now(items: &[TExpr], needed: &[bool], last: &mut usize, a: &Assign) -> bool
    requires typed { All (λ e. IsTyped (expr_term e)) items.now }
    requires readable { All (λ e. CanRead (reading_of a.now) 0 (expr_term e)) items.now }
    ensures { result ≡ hold (needed_of (map expr_term items.now) needed.now) (reading_of a.now) }
{
    let middle = (*last).min(items.len()).min(needed.len());
    let (front, back) = items.split_at(middle);
    let (marks, others) = needed.split_at(middle);
    if let Some(place) = needed_fault(back, others, a) {
        *last = middle + place;
        return false;
    }
    match needed_fault(front, marks, a) {
        Some(place) => {
            *last = place;
            false
        }
        None => true,
    }
}

/// The number at a place, an element of a property, is the wanted one where the items that are needed hold with it. Nothing is asked where it is the wanted one already.
fn try_number(
    alloc: Global,
    a: &mut Assign,
    items: &[TExpr],
    needed: &[bool],
    last: &mut usize,
    wanted: &Assign,
    at: (u32, u32),
) -> Result<(), NoMemory>
    requires within { at.1 < length (slice_index_or a.old.values at.0 []) }
    requires typed { All (λ e. IsTyped (expr_term e)) items.now }
    requires readable { All (λ e. CanRead (with_number (reading_of a.old) at.0 at.1 ((reading_of wanted.now).element at.0 at.1)) 0 (expr_term e)) items.now }
    ensures reads { OnOk result (reading_of a.new ≡ step_with (needed_of (map expr_term items.now) needed.now) (reading_of a.old) (with_number (reading_of a.old) at.0 at.1 ((reading_of wanted.now).element at.0 at.1))) }
    ensures long { OnOk result ((p : ℕ) → length (slice_index_or a.new.values p []) ≡ length (slice_index_or a.old.values p [])) }
{
    let (prop, index) = at;
    let place = u64::from(index);
    let number = wanted.element(prop, place);
    let before = a.element(prop, place);
    if before == number {
        return Ok(());
    }
    put(alloc, a, prop, index, number)?;
    if hold_now(items, needed, last, a) {
        return Ok(());
    }
    put(alloc, a, prop, index, before)?;
    Ok(())
}

/// An unknown takes its wanted number where the items that are needed hold with it.
fn settle_slot(
    alloc: Global,
    a: &mut Assign,
    items: &[TExpr],
    needed: &[bool],
    last: &mut usize,
    wanted: &Assign,
    slot: Slot,
) -> Result<(), NoMemory>
    requires within { IsWithin a.old slot }
    requires typed { All (λ e. IsTyped (expr_term e)) items.now }
    requires readable { All (λ e. CanRead (with_wanted (reading_of wanted.now) (reading_of a.old) slot) 0 (expr_term e)) items.now }
    ensures reads { OnOk result (reading_of a.new ≡ step (needed_of (map expr_term items.now) needed.now) (reading_of wanted.now) (reading_of a.old) slot) }
    ensures long { OnOk result ((p : ℕ) → length (slice_index_or a.new.values p []) ≡ length (slice_index_or a.old.values p [])) }
{
    match slot {
        Slot::Scalar(prop) => try_number(alloc, a, items, needed, last, wanted, (prop, 0)),
        Slot::Element(prop, index) => {
            try_number(alloc, a, items, needed, last, wanted, (prop, index))
        }
        Slot::Size(_) => Ok(()),
    }
}

/// Puts wanted numbers into an assignment of the last phase with which the items that are needed hold: each unknown in turn takes its wanted number where these hold with it. They hold with the result, which is an assignment of the phase.
pub fn settle(
    alloc: Global,
    frame: &Frame,
    sizes: &[u32],
    slots: &[Slot],
    items: &[TExpr],
    needed: &[bool],
    wanted: &Assign,
    found: Assign,
) -> Result<Assign, NoMemory>
    requires sound { IsSound (frame_term frame.now) }
    requires fit { SizesFit (frame_term frame.now) sizes.now }
    requires slots { slots.now ≡ unknowns_of (frame_term frame.now) Whole sizes.now }
    requires typed { All (λ e. IsTyped (expr_term e)) items.now }
    requires readable { (r : Reading) → IsAssignment (frame_term frame.now) Whole sizes.now [] r → All (λ e. CanRead r 0 (expr_term e)) items.now }
    requires wanted { IsAssignment (frame_term frame.now) Whole sizes.now [] (reading_of wanted.now) }
    requires long { (p : ℕ) → length (slice_index_or found.values p []) ≡ slice_index sizes.now p }
    requires fits { IsAssignment (frame_term frame.now) Whole sizes.now [] (reading_of found) }
    requires meets { hold (needed_of (map expr_term items.now) needed.now) (reading_of found) ≡ true }
    ensures steps { IfOk result (λ a. reading_of a ≡ steps (needed_of (map expr_term items.now) needed.now) (reading_of wanted.now) (reading_of found) slots.now) }
    ensures fits { IfOk result (λ a. (chosen : List (ℕ × ℕ)) → AreFixed (frame_term frame.now) (reading_of wanted.now) chosen → AreFixed (frame_term frame.now) (reading_of found) chosen → IsAssignment (frame_term frame.now) Whole sizes.now chosen (reading_of a)) }
    ensures meets { IfOk result (λ a. hold (needed_of (map expr_term items.now) needed.now) (reading_of a) ≡ true) }
{
    let mut a = found;
    let mut last = 0;
    for at in 0..slots.len() {
        settle_slot(alloc, &mut a, items, needed, &mut last, wanted, slots[at])?;
    }
    Ok(a)
}
