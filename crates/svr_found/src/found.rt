// The assignment of the last phase of a call that a search found.

ghost use Rattle.std.specs.Prelude.{◌≡◌, ℕ, Bool, true, List, [], ◌++◌, length, slice_index, slice_index_or, IfOk};
ghost use Rattle.std.specs.List.{list_all};
ghost use Rattle.svr_chain.specs.Valuations.{lit_value};
ghost use Rattle.svr_query.specs.Answer.{IsModel};
ghost use Rattle.svr_query.specs.Logged.{valuation_of};
ghost use Rattle.svr_eval.specs.Reading.{reading_of};
ghost use Rattle.svr_frame.specs.declared.part.Part.TheVariants.{All as Whole};
ghost use Rattle.svr_frame.specs.Frame.{frame_term, state_at};
ghost use Rattle.svr_frame.specs.Occurrences.{all_true};
ghost use Rattle.svr_frame.specs.Phases.{unknowns_of, hard_of, live_of};
ghost use Rattle.svr_frame.specs.Satisfaction.{is_at, is_size_of, IsAssignment, kept_of};
ghost use Rattle.svr_frame.specs.Sound.{IsSound, SizesFit};
ghost use Rattle.svr_vector.specs.Places.{rows};
ghost use Rattle.svr_inputs.specs.Inputs.{number_row, size_row};
ghost use Rattle.svr_encoded.specs.Slots.{place_where, positive_bits, widths_of, reading_at};
ghost use Rattle.svr_phase.specs.Proof.{fixed_lits};
ghost use Rattle.svr_phase.specs.Chosen.{AreCyclicValues};
ghost use Rattle.svr_question.specs.Ends.{EncodesCall, kept_literals};

use crate::numbers::reading_found;
use std::alloc::Global;
use svr_encoded::{Encoded, table_of};
use svr_eval::Assign;
use svr_frame::{Frame, Slot};
use svr_inputs::Inputs;
use svr_vector::NoMemory;

/// The assignment that the bits of the slots of the last phase spell.
fn slots_found(
    alloc: Global,
    frame: &Frame,
    inputs: &Inputs<'_>,
    slots: &[Slot],
    values: &[bool],
) -> Result<Assign, NoMemory>
    requires sound { IsSound (frame_term frame.now) }
    requires fit { SizesFit (frame_term frame.now) inputs.now.sizes.now }
    requires slots { slots.now ≡ unknowns_of (frame_term frame.now) Whole inputs.now.sizes.now }
    requires state { inputs.now.state.now ≡ (frame_term frame.now).state }
    requires numbers { (p j : ℕ) → number_row inputs.now.table.now p j ≡ place_where (is_at p j) 0 slots.now }
    requires sizes { (p : ℕ) → size_row inputs.now.table.now p ≡ place_where (is_size_of p) 0 slots.now }
    requires bits { rows inputs.now.bits.now ≡ positive_bits 0 (widths_of (frame_term frame.now) 1 slots.now) }
    ensures reads { IfOk result (λ a. reading_of a ≡ reading_at (state_at (frame_term frame.now) inputs.now.sizes.now) slots.now (rows inputs.now.bits.now) (valuation_of values.now)) }
    ensures long { IfOk result (λ a. (p : ℕ) → length (slice_index_or a.values p []) ≡ slice_index inputs.now.sizes.now p) }
{
    reading_found(alloc, inputs, values)
}

/// The assignment of the last phase that the values of the variables 1 and on stand for, which may be any: each unknown has the number that its bits spell, and all else is as in the state. Where they make the literals of chosen cyclic values true, it has these; where they meet the clauses and the roots of the hard items and of the kept soft ones, all these items hold. Each property has as many numbers as its size says.
pub fn assignment_found(
    alloc: Global,
    frame: &Frame,
    sizes: &[u32],
    encoding: &Encoded,
    values: &[bool],
) -> Result<Assign, NoMemory>
    requires sound { IsSound (frame_term frame.now) }
    requires fit { SizesFit (frame_term frame.now) sizes.now }
    requires encodes { EncodesCall (frame_term frame.now) sizes.now encoding.now }
    ensures reads { IfOk result (λ a. reading_of a ≡ reading_at (state_at (frame_term frame.now) sizes.now) encoding.now.slots.items (rows encoding.now.bits.items) (valuation_of values.now)) }
    ensures long { IfOk result (λ a. (p : ℕ) → length (slice_index_or a.values p []) ≡ slice_index sizes.now p) }
    ensures fits { IfOk result (λ a. (chosen : List (ℕ × ℕ)) → AreCyclicValues (frame_term frame.now) chosen → list_all (lit_value (valuation_of values.now)) (fixed_lits encoding.now chosen) ≡ true → IsAssignment (frame_term frame.now) Whole sizes.now chosen (reading_of a)) }
    ensures meets { IfOk result (λ a. (chosen : List (ℕ × ℕ)) (fates : List Bool) → IsModel encoding.now.cnf.clauses.items (kept_literals (frame_term frame.now) sizes.now chosen fates encoding.now) values.now → all_true (reading_of a) (hard_of (frame_term frame.now) Whole sizes.now ++ kept_of (live_of (frame_term frame.now) Whole sizes.now) fates) ≡ true) }
{
    let slots = encoding.slots.as_slice();
    let table = table_of(alloc, slots)?;
    let inputs = Inputs {
        state: &frame.state,
        sizes,
        table: &table,
        bits: encoding.bits.as_slice(),
        count: encoding.cnf.vars,
    };
    slots_found(alloc, frame, &inputs, slots, values)
}
