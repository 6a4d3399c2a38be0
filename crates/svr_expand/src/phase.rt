// What a phase asks, as closed expressions.

ghost use Rattle.std.specs.Prelude.{◌≡◌, [], ◌++◌, ◌≤◌, ℕ, List, IfOk, length, map};
ghost use Rattle.svr_typed.specs.ExprTerm.{expr_term};
ghost use Rattle.svr_eval.specs.Reading.{Reading, reading_of};
ghost use Rattle.svr_eval.specs.Value.{alone, is_set};
ghost use Rattle.svr_limits.specs.declared.limit.TheConstants.{PROPERTY_LIMIT};
ghost use Rattle.svr_frame.specs.Frame.{frame_term, state_at};
ghost use Rattle.svr_frame.specs.Occurrences.{closed_of, is_true};
ghost use Rattle.svr_frame.specs.Phases as spec;
ghost use Rattle.svr_frame.specs.Satisfaction.{IsAssignment};
ghost use Rattle.svr_frame.specs.Sound.{IsSound, SizesFit};
ghost use Rattle.svr_expand.specs.Domains.{all_slot_exprs, size_exprs_of};

use crate::around::Around;
use crate::domain::{add_size_items, add_slot_items};
use crate::held::{beside, both};
use crate::slots::unknowns;
use crate::sort::{Expansion, sorted};
use crate::state::state_at;
use crate::walk::add_items;
use sqlite_items::Items;
use std::alloc::Global;
use svr_eval::{Assign, Env};
use svr_frame::{Frame, Part};
use svr_mention::Setting;
use svr_typed::{NoMemory, TExpr};

/// The items of the unknowns themselves.
#[tactic(auto, using(crate::proofs::Joined::three))]
fn own_items(
    alloc: Global,
    frame: &Frame,
    part: Part,
    sizes: &[u32],
) -> Result<Items<TExpr>, NoMemory>
    requires { length (frame_term frame.now).class.props ≤ PROPERTY_LIMIT }
    ensures { IfOk result (λ r. map expr_term r ≡ all_slot_exprs (frame_term frame.now) (spec.unknowns_of (frame_term frame.now) part sizes.now) ++ size_exprs_of (frame_term frame.now) part) }
{
    let mut hard = Items::new(alloc);
    let slots = unknowns(alloc, frame, part, sizes)?;
    add_slot_items(alloc, frame, slots.as_slice(), &mut hard)?;
    match part {
        Part::Randc | Part::All => {}
        Part::Sizes => add_size_items(alloc, frame, &mut hard)?,
    }
    Ok(hard)
}

/// The hard and the live soft ones of the active items.
fn active_items(
    alloc: Global,
    frame: &Frame,
    part: Part,
    sizes: &[u32],
    state: &Assign,
) -> Result<Expansion, NoMemory>
    requires sound { IsSound (frame_term frame.now) }
    requires fit { SizesFit (frame_term frame.now) sizes.now }
    requires cut { reading_of state.now ≡ state_at (frame_term frame.now) sizes.now }
    ensures hard { IfOk result (λ x. map expr_term x.hard ≡ map (closed_of (state_at (frame_term frame.now) sizes.now)) (spec.asked_of (frame_term frame.now) part sizes.now)) }
    ensures soft { IfOk result (λ x. map expr_term x.soft ≡ map (closed_of (state_at (frame_term frame.now) sizes.now)) (spec.live_of (frame_term frame.now) part sizes.now)) }
{
    let set = Setting {
        frame,
        part,
        sizes,
        state,
    };
    let mut found = Items::new(alloc);
    let items = frame.items.as_slice();
    add_items(
        alloc,
        items,
        &Around::Outside,
        &Env::new(),
        &set,
        &mut found,
    )?;
    let asked = sorted(alloc, found, sizes)?;
    Ok(asked)
}

/// One list before another.
fn appended<T: Drop>(front: Items<T>, back: Items<T>) -> Result<Items<T>, NoMemory>
    ensures { IfOk result (λ all. all ≡ front ++ back) }
{
    let mut all = front;
    all.append(back)?;
    Ok(all)
}

/// The items of a phase at these sizes as closed expressions: those that have to hold, and the live soft ones from the highest priority down (IEEE 1800-2017, 18.5 and 18.5.14). Such an expression is not 0 exactly where its occurrence holds.
pub fn expand(
    alloc: Global,
    frame: &Frame,
    part: Part,
    sizes: &[u32],
) -> Result<Expansion, NoMemory>
    requires sound { IsSound (frame_term frame.now) }
    requires fit { SizesFit (frame_term frame.now) sizes.now }
    ensures hard { IfOk result (λ x. map expr_term x.hard ≡ map (closed_of (state_at (frame_term frame.now) sizes.now)) (spec.hard_of (frame_term frame.now) part sizes.now)) }
    ensures soft { IfOk result (λ x. map expr_term x.soft ≡ map (closed_of (state_at (frame_term frame.now) sizes.now)) (spec.live_of (frame_term frame.now) part sizes.now)) }
    ensures hard_truth { IfOk result (λ x. (fixed : List (ℕ × ℕ)) (a : Reading) → IsAssignment (frame_term frame.now) part sizes.now fixed a → map (λ e. is_set (alone a [] e)) (map expr_term x.hard) ≡ map (is_true a) (spec.hard_of (frame_term frame.now) part sizes.now)) }
    ensures soft_truth { IfOk result (λ x. (fixed : List (ℕ × ℕ)) (a : Reading) → IsAssignment (frame_term frame.now) part sizes.now fixed a → map (λ e. is_set (alone a [] e)) (map expr_term x.soft) ≡ map (is_true a) (spec.live_of (frame_term frame.now) part sizes.now)) }
{
    let state = state_at(alloc, frame, sizes)?;
    let active = active_items(alloc, frame, part, sizes, &state);
    drop(state);
    let own = own_items(alloc, frame, part, sizes);
    let (own, active) = both(own, active)?;
    let (soft, hard) = beside(active.soft, appended(own, active.hard))?;
    Ok(Expansion { hard, soft })
}
