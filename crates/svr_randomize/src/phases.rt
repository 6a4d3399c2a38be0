// The phases of a call, in their order: cyclic values, sizes, all values.

ghost use Rattle.svr_limits.specs.declared.limit.TheConstants.{ELEMENT_LIMIT};
ghost use Rattle.std.specs.Prelude.{◌≡◌, ◌≤◌, true, length, IfOk, OnOk};
ghost use Rattle.svr_frame.specs.declared.part.Part.TheVariants.{Randc};
ghost use Rattle.svr_frame.specs.Frame.{frame_term};
ghost use Rattle.svr_frame.specs.Sound.{IsSound, SizesFit};
ghost use Rattle.svr_phase.specs.Chosen.{AreCyclicValues};
ghost use Rattle.svr_phase.specs.Sizes as spec;
ghost use Rattle.svr_call.specs.Call.{call_of};
ghost use Rattle.svr_cyclic.specs.Ends.{UsedFit};
ghost use Rattle.svr_randomize.specs.Answers.{IsAnswer, IsAnswerSized, IsAnswerLight, IsAnswerOpen, FitsIfChanged};
ghost use Rattle.svr_randomize.specs.Kept.{IsKept};

use crate::answer::{Answer, beyond_cap, gave_up, no_cyclic_value, no_sizes, too_heavy};
use crate::kept::Kept;
use crate::memory::NoMemory;
use crate::values::values_answer;
use std::alloc::Global;
use svr_call::Query;
use svr_cyclic::{Chosen, CyclicEnd, choose_randc};
use svr_frame::{Frame, Part};
use svr_limits::WEIGHT_LIMIT;
use svr_phase::Options;
use svr_sized::{SizesEnd, choose_sizes};
use svr_weight::weight;
use svr_world::World;

/// Whether the call chooses some size.
fn chooses_sizes(frame: &Frame) -> bool
    ensures { result ≡ spec.chooses_sizes (frame_term frame.now) }
{
    frame.free_size.as_slice().iter().any(|is_free| *is_free)
}

/// The answer of a call whose cyclic values are chosen, at these sizes, where its last phase is light enough.
fn light_answer(
    alloc: Global,
    frame: &Frame,
    sizes: &[u32],
    chosen: Chosen,
    number: u64,
    opts: Options,
    kept: &mut Kept,
) -> Result<Answer, NoMemory>
    requires sound { IsSound (frame_term frame.now) }
    requires fit { SizesFit (frame_term frame.now) sizes.now }
    requires chosen { AreCyclicValues (frame_term frame.now) chosen.values }
    requires few { length chosen.encodings ≤ 1 }
    requires used { UsedFit (frame_term frame.now).class chosen.used }
    requires budget { 1 ≤ opts.budget }
    requires cap { opts.size_cap ≤ ELEMENT_LIMIT }
    requires kept { IsKept (frame_term frame.now) kept.old }
    ensures answer { IfOk result (λ r. IsAnswerSized (frame_term frame.now) sizes.now chosen number opts r) }
    ensures fits { IfOk result (λ r. FitsIfChanged (frame_term frame.now).class r.change) }
    ensures kept { OnOk result (IsKept (frame_term frame.now) kept.new) }
{
    let whole = weight(frame, Part::All, sizes);
    if whole > WEIGHT_LIMIT {
        return Ok(too_heavy(whole));
    }
    values_answer(alloc, frame, sizes, chosen, number, opts, kept)
}

/// The answer of a call that chooses sizes, where that phase is light enough.
fn open_answer(
    alloc: Global,
    frame: &Frame,
    chosen: Chosen,
    number: u64,
    opts: Options,
    kept: &mut Kept,
) -> Result<Answer, NoMemory>
    requires sound { IsSound (frame_term frame.now) }
    requires chosen { AreCyclicValues (frame_term frame.now) chosen.values }
    requires few { length chosen.encodings ≤ 1 }
    requires used { UsedFit (frame_term frame.now).class chosen.used }
    requires budget { 1 ≤ opts.budget }
    requires some { 1 ≤ opts.size_cap }
    requires cap { opts.size_cap ≤ ELEMENT_LIMIT }
    requires kept { IsKept (frame_term frame.now) kept.old }
    ensures answer { IfOk result (λ r. IsAnswerLight (frame_term frame.now) chosen number opts r) }
    ensures fits { IfOk result (λ r. FitsIfChanged (frame_term frame.now).class r.change) }
    ensures kept { OnOk result (IsKept (frame_term frame.now) kept.new) }
{
    let values = chosen.values.as_slice();
    let end = choose_sizes(alloc, frame, values, number, opts)?;
    match end {
        SizesEnd::Chosen(list) => {
            let sizes = list.as_slice();
            light_answer(alloc, frame, sizes, chosen, number, opts, kept)
        }
        SizesEnd::None { proof, encoding } => no_sizes(alloc, chosen, proof, encoding),
        SizesEnd::BeyondCap {
            sizes,
            proof,
            encoding,
        } => beyond_cap(alloc, sizes, proof, encoding),
        SizesEnd::Spent {
            encoding,
            log,
            first,
        } => Ok(gave_up(Query::Size, encoding, log, first)),
    }
}

/// The answer of a call whose cyclic values are chosen.
fn sized_answer(
    alloc: Global,
    frame: &Frame,
    chosen: Chosen,
    number: u64,
    opts: Options,
    kept: &mut Kept,
) -> Result<Answer, NoMemory>
    requires sound { IsSound (frame_term frame.now) }
    requires chosen { AreCyclicValues (frame_term frame.now) chosen.values }
    requires few { length chosen.encodings ≤ 1 }
    requires used { UsedFit (frame_term frame.now).class chosen.used }
    requires budget { 1 ≤ opts.budget }
    requires some { 1 ≤ opts.size_cap }
    requires cap { opts.size_cap ≤ ELEMENT_LIMIT }
    requires kept { IsKept (frame_term frame.now) kept.old }
    ensures answer { IfOk result (λ r. IsAnswerOpen (frame_term frame.now) chosen number opts r) }
    ensures fits { IfOk result (λ r. FitsIfChanged (frame_term frame.now).class r.change) }
    ensures kept { OnOk result (IsKept (frame_term frame.now) kept.new) }
{
    let sizes = frame.state.sizes.as_slice();
    if !chooses_sizes(frame) {
        return light_answer(alloc, frame, sizes, chosen, number, opts, kept);
    }
    let some = weight(frame, Part::Sizes, sizes);
    if some > WEIGHT_LIMIT {
        return Ok(too_heavy(some));
    }
    open_answer(alloc, frame, chosen, number, opts, kept)
}

/// What a call on an object answers in its frame, and what it changes. The items of its last phase are taken from what is kept, where they are the same.
pub fn answer_in(
    alloc: Global,
    frame: &Frame,
    world: &World,
    object: u32,
    number: u64,
    opts: Options,
    kept: &mut Kept,
) -> Result<Answer, NoMemory>
    requires sound { IsSound (frame_term frame.now) }
    requires budget { 1 ≤ opts.budget }
    requires some { 1 ≤ opts.size_cap }
    requires cap { opts.size_cap ≤ ELEMENT_LIMIT }
    requires kept { IsKept (frame_term frame.now) kept.old }
    ensures answer { IfOk result (IsAnswer (call_of world.now object (frame_term frame.now) number opts)) }
    ensures fits { IfOk result (λ r. FitsIfChanged (frame_term frame.now).class r.change) }
    ensures kept { OnOk result (IsKept (frame_term frame.now) kept.new) }
{
    let sizes = frame.state.sizes.as_slice();
    let cyclic = weight(frame, Part::Randc, sizes);
    if cyclic > WEIGHT_LIMIT {
        return Ok(too_heavy(cyclic));
    }
    let end = choose_randc(alloc, frame, world, object, number, opts)?;
    match end {
        CyclicEnd::Chosen(chosen) => sized_answer(alloc, frame, chosen, number, opts, kept),
        CyclicEnd::None {
            chosen,
            proofs,
            encodings,
        } => Ok(no_cyclic_value(alloc, chosen, proofs, encodings)),
        CyclicEnd::Spent {
            prop,
            encoding,
            log,
            first,
        } => Ok(gave_up(Query::Randc(prop), encoding, log, first)),
    }
}
