// The last phase of a call: its values.

ghost use Rattle.svr_limits.specs.declared.limit.TheConstants.{ELEMENT_LIMIT};
ghost use Rattle.std.specs.Prelude.{◌≡◌, ◌≤◌, ◌+◌, ◌++◌, [], Some, ℕ, List, map, length, IfOk, OnOk};
ghost use Rattle.std.specs.List.{range_with_len};
ghost use Rattle.svr_limits.specs.declared.limit.TheConstants.{PROPERTY_LIMIT};
ghost use Rattle.svr_eval.specs.Reading.{reading_of};
ghost use Rattle.svr_frame.specs.declared.part.Part.TheVariants.{All as Whole};
ghost use Rattle.svr_frame.specs.Frame.{frame_term};
ghost use Rattle.svr_frame.specs.Phases.{hard_of, live_of};
ghost use Rattle.svr_frame.specs.Satisfaction.{IsAssignment};
ghost use Rattle.svr_frame.specs.Sound.{IsSound, SizesFit};
ghost use Rattle.svr_phase.specs.Sizes.{meets_all};
ghost use Rattle.svr_phase.specs.Chosen.{AreCyclicValues};
ghost use Rattle.svr_call.specs.declared.outcome.Outcome.TheVariants.{One};
ghost use Rattle.svr_call.specs.Call.{numbers_read, random_props};
ghost use Rattle.svr_question.specs.Ends.{EncodesCall};
ghost use Rattle.svr_cyclic.specs.Ends.{UsedFit};
ghost use Rattle.svr_randomize.specs.Answers.{AreItems, IsAnswerAt, IsAnswerOf, FitsIfChanged};
ghost use Rattle.svr_randomize.specs.Kept.{AreItemsIn, IsLeft, IsKept};

use crate::answer::{Answer, Decided, leaving, one};
use crate::asked::asked_answer;
use crate::clauses::items_of;
use crate::kept::{Form, Kept, Last, keep};
use crate::memory::NoMemory;
use sqlite_items::Items;
use std::alloc::Global;
use svr_cyclic::Chosen;
use svr_encoded::Encoded;
use svr_eval::Assign;
use svr_expand::Expansion;
use svr_frame::Frame;
use svr_phase::Options;
use svr_values::{all_hold, wanted};

/// The ranks of so many soft items. Ranks are numbers of 32 bits.
fn all_ranks(alloc: Global, count: usize) -> Result<Items<u32>, NoMemory>
    ensures { IfOk result (λ ranks. ranks ≡ map (λ i. i + 1) (range_with_len 0 count)) }
{
    if count > u32::MAX as usize {
        return Err(NoMemory);
    }
    let mut ranks = Items::new(alloc);
    for place in 0..count as u32 {
        ranks.push(place + 1)?;
    }
    Ok(ranks)
}

/// 1, with the wanted values, which meet all items.
fn preferred_answer(
    alloc: Global,
    frame: &Frame,
    sizes: &[u32],
    soft: usize,
    chosen: Chosen,
    wanted: &Assign,
) -> Result<Answer, NoMemory>
    requires { length (frame_term frame.now).class.props ≤ PROPERTY_LIMIT }
    ensures { IfOk result (λ r. r ≡ record { outcome = One (map (λ i. i + 1) (range_with_len 0 soft)) [] chosen.cycles chosen.encodings; change = Some (record { values = numbers_read sizes.now (reading_of wanted.now) (random_props (frame_term frame.now)); used = chosen.used }) }) }
{
    let kept = all_ranks(alloc, soft)?;
    one(alloc, frame, sizes, wanted, chosen, kept, Items::new(alloc))
}

/// Whether the wanted values meet all items.
fn meet_items(frame: &Frame, sizes: &[u32], items: &Expansion, wanted: &Assign) -> bool
    requires sound { IsSound (frame_term frame.now) }
    requires fit { SizesFit (frame_term frame.now) sizes.now }
    requires items { AreItems (frame_term frame.now) sizes.now items.now }
    requires wish { (fixed : List (ℕ × ℕ)) × IsAssignment (frame_term frame.now) Whole sizes.now fixed (reading_of wanted.now) }
    ensures { result ≡ meets_all (reading_of wanted.now) (hard_of (frame_term frame.now) Whole sizes.now ++ live_of (frame_term frame.now) Whole sizes.now) }
{
    let hard = items.hard.as_slice();
    let soft = items.soft.as_slice();
    let hard_met = all_hold(hard, wanted);
    if !hard_met {
        return false;
    }
    let soft_met = all_hold(soft, wanted);
    soft_met
}

/// Whether the wanted values meet all items that were made into clauses.
fn meet_clauses(frame: &Frame, sizes: &[u32], encoding: &Encoded, wanted: &Assign) -> bool
    requires sound { IsSound (frame_term frame.now) }
    requires fit { SizesFit (frame_term frame.now) sizes.now }
    requires encodes { EncodesCall (frame_term frame.now) sizes.now encoding.now }
    requires wish { (fixed : List (ℕ × ℕ)) × IsAssignment (frame_term frame.now) Whole sizes.now fixed (reading_of wanted.now) }
    ensures { result ≡ meets_all (reading_of wanted.now) (hard_of (frame_term frame.now) Whole sizes.now ++ live_of (frame_term frame.now) Whole sizes.now) }
{
    all_hold(encoding.items.as_slice(), wanted)
}

/// Whether the wanted values meet all items.
fn are_met(frame: &Frame, sizes: &[u32], items: &Form, wanted: &Assign) -> bool
    requires sound { IsSound (frame_term frame.now) }
    requires fit { SizesFit (frame_term frame.now) sizes.now }
    requires items { AreItemsIn (frame_term frame.now) sizes.now items.now }
    requires wish { (fixed : List (ℕ × ℕ)) × IsAssignment (frame_term frame.now) Whole sizes.now fixed (reading_of wanted.now) }
    ensures { result ≡ meets_all (reading_of wanted.now) (hard_of (frame_term frame.now) Whole sizes.now ++ live_of (frame_term frame.now) Whole sizes.now) }
{
    match items {
        Form::Expressions(items) => meet_items(frame, sizes, items, wanted),
        Form::Clauses { hard: _, encoding } => meet_clauses(frame, sizes, encoding, wanted),
    }
}

/// The wanted values where they meet all items, else what a search finds.
fn decided(
    alloc: Global,
    frame: &Frame,
    sizes: &[u32],
    items: Form,
    chosen: Chosen,
    wanted: &Assign,
    budget: u64,
) -> Result<Decided, NoMemory>
    requires sound { IsSound (frame_term frame.now) }
    requires fit { SizesFit (frame_term frame.now) sizes.now }
    requires items { AreItemsIn (frame_term frame.now) sizes.now items }
    requires chosen { AreCyclicValues (frame_term frame.now) chosen.values }
    requires few { length chosen.encodings ≤ 1 }
    requires used { UsedFit (frame_term frame.now).class chosen.used }
    requires wish { IsAssignment (frame_term frame.now) Whole sizes.now chosen.values (reading_of wanted.now) }
    requires budget { 1 ≤ budget }
    ensures answer { IfOk result (λ r. IsAnswerAt (frame_term frame.now) sizes.now chosen budget (reading_of wanted.now) r.answer) }
    ensures fits { IfOk result (λ r. FitsIfChanged (frame_term frame.now).class r.answer.change) }
    ensures left { IfOk result (λ r. IsLeft (frame_term frame.now) sizes.now r.left) }
{
    if are_met(frame, sizes, &items, wanted) {
        let soft = items.soft_count();
        let answer = preferred_answer(alloc, frame, sizes, soft, chosen, wanted);
        return leaving(answer, items);
    }
    asked_answer(alloc, frame, sizes, items, chosen, wanted, budget)
}

/// The answer of a call that has come to its values. Its items are those that are kept, where they read the same numbers, and it keeps them for the next one where its answer does not carry them along.
pub(crate) fn values_answer(
    alloc: Global,
    frame: &Frame,
    sizes: &[u32],
    chosen: Chosen,
    number: u64,
    opts: Options,
    kept: &mut Kept,
) -> Result<Answer, NoMemory>
    requires sound { IsSound (frame_term frame.now) }
    requires fit { SizesFit (frame_term frame.now) sizes.now }
    requires chosen { AreCyclicValues (frame_term frame.now) chosen.values }
    requires few { length chosen.encodings ≤ 1 }
    requires used { UsedFit (frame_term frame.now).class chosen.used }
    requires budget { 1 ≤ opts.budget }
    requires cap { opts.size_cap ≤ ELEMENT_LIMIT }
    requires kept { IsKept (frame_term frame.now) kept.old }
    ensures answer { IfOk result (λ r. IsAnswerOf (frame_term frame.now) sizes.now chosen number opts r) }
    ensures fits { IfOk result (λ r. FitsIfChanged (frame_term frame.now).class r.change) }
    ensures kept { OnOk result (IsKept (frame_term frame.now) kept.new) }
{
    let values = chosen.values.as_slice();
    let preferred = wanted(alloc, frame, sizes, values, number, opts)?;
    let last = items_of(alloc, frame, sizes, kept)?;
    let Last { read, items } = last;
    let found = decided(alloc, frame, sizes, items, chosen, &preferred, opts.budget)?;
    let Decided { answer, left } = found;
    keep(kept, read, left);
    Ok(answer)
}
