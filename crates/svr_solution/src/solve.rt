// The assignment of an answer 1 behind a question.

ghost use Rattle.svr_limits.specs.declared.limit.TheConstants.{ELEMENT_LIMIT};
ghost use Rattle.std.specs.Prelude.{◌≡◌, ◌-◌, ◌≤◌, ℕ, true, List, ◌++◌, length, replicate, IfOk};
ghost use Rattle.svr_eval.specs.Reading.{reading_of};
ghost use Rattle.svr_frame.specs.declared.part.Part.TheVariants.{All as Whole};
ghost use Rattle.svr_frame.specs.Frame.{frame_term};
ghost use Rattle.svr_frame.specs.Satisfaction.{IsAssignment};
ghost use Rattle.svr_frame.specs.Sound.{IsSound, SizesFit};
ghost use Rattle.svr_phase.specs.declared.choice.Choice.{Choice};
ghost use Rattle.svr_phase.specs.Cyclic.{fixed_of};
ghost use Rattle.svr_phase.specs.Chosen.{AreCyclicValues};
ghost use Rattle.svr_question.specs.Ends.{EncodesCall, IsMet};
ghost use Rattle.svr_call.specs.Call.{preferred, IsSolution};
ghost use Rattle.svr_solution.specs.Calls.{call_in};

use crate::memory::NoMemory;
use std::alloc::Global;
use svr_encoded::Encoded;
use svr_eval::Assign;
use svr_found::assignment_found;
use svr_frame::Frame;
use svr_question::Met;
use svr_settled::settle;

/// Which of so many items are needed: the hard ones, which are the first, and of the soft ones those that are kept.
fn needed_items(alloc: Global, count: usize, fates: &[bool]) -> Result<Vec<bool>, NoMemory>
    requires { length fates.now ≤ count }
    ensures { IfOk result (λ needed. needed.items ≡ replicate (count - length fates.now) true ++ fates.now) }
{
    let mut needed = vec![in alloc; true; count - fates.len()]?;
    needed.extend_from_slice(fates)?;
    Ok(needed)
}

/// The assignment of an answer 1 behind a question, from the values that it found: each unknown has the number that its bits spell, and then in turn its preferred one where the hard items and the kept soft ones hold with it.
pub fn solution(
    alloc: Global,
    frame: &Frame,
    sizes: &[u32],
    encoding: &Encoded,
    chosen: &[(u32, u64)],
    met: &Met,
    wanted: &Assign,
) -> Result<Assign, NoMemory>
    requires sound { IsSound (frame_term frame.now) }
    requires fit { SizesFit (frame_term frame.now) sizes.now }
    requires encodes { EncodesCall (frame_term frame.now) sizes.now encoding.now }
    requires chosen { AreCyclicValues (frame_term frame.now) chosen.now }
    requires met { (place : ℕ) × IsMet (frame_term frame.now) sizes.now chosen.now place encoding.now met.now }
    requires wanted { IsAssignment (frame_term frame.now) Whole sizes.now chosen.now (reading_of wanted.now) }
    ensures fits { IfOk result (λ a. IsAssignment (frame_term frame.now) Whole sizes.now chosen.now (reading_of a)) }
    ensures solves { IfOk result (λ a. (used : List (List ℕ)) (words : ℕ → ℕ) (budget cap : ℕ) (choices : List Choice) → cap ≤ ELEMENT_LIMIT → chosen.now ≡ fixed_of choices → reading_of wanted.now ≡ preferred (call_in (frame_term frame.now) used words budget cap) choices sizes.now → IsSolution (call_in (frame_term frame.now) used words budget cap) choices sizes.now met.now.fates.items (reading_of a)) }
{
    let values = met.values.as_slice();
    let found = assignment_found(alloc, frame, sizes, encoding, values)?;
    let slots = encoding.slots.as_slice();
    let items = encoding.items.as_slice();
    let fates = met.fates.as_slice();
    let needed = needed_items(alloc, items.len(), fates)?;
    let marks = needed.as_slice();
    let settled = settle(alloc, frame, sizes, slots, items, marks, wanted, found)?;
    Ok(settled)
}
