// One call, from world to world.

ghost use Rattle.svr_limits.specs.declared.limit.TheConstants.{ELEMENT_LIMIT};
ghost use Rattle.std.specs.Prelude.{◌≡◌, ◌≤◌, ℕ, OnErr, OnOk, IfOk};
ghost use Rattle.svr_world.specs.World.{IsMade, object_of};
ghost use Rattle.svr_world.specs.Fits.{FitsClass};
ghost use Rattle.svr_frame.specs.Frame.{frame_term};
ghost use Rattle.svr_frame.specs.Sound.{IsSound};
ghost use Rattle.svr_call.specs.Call.{CallStep};
ghost use Rattle.svr_budget_laws.specs.Budget.{GivesUpOverMany};
ghost use Rattle.svr_budget_laws.specs.Bounds.{HasFewEncodings, NameOneAPhase};
ghost use Rattle.svr_randomize.specs.Answers.{changed, CanBeWritten};
ghost use Rattle.svr_randomize.specs.Kept.{IsKept};

use crate::answer::Answer;
use crate::kept::Kept;
use crate::memory::NoMemory;
use crate::phases::answer_in;
use std::alloc::Global;
use svr_call::Outcome;
use svr_frame::Frame;
use svr_phase::Options;
use svr_world::{Change, World};

/// Writes what an answer changes, which takes no memory.
fn write(world: &mut World, object: u32, change: Option<Change>)
    requires made { IsMade world.old object }
    requires plain { CanBeWritten change }
    ensures { world.new ≡ changed world.old object change }
{
    if let Some(change) = change {
        world.commit(object, change);
    }
}

/// One call of `randomize` (IEEE 1800-2017, 18.6) on an object, in its frame, with what an earlier call in this frame has kept, and kept anew for a later one. All memory is taken before the world is changed.
pub fn randomize_again(
    alloc: Global,
    world: &mut World,
    object: u32,
    frame: &Frame,
    number: u64,
    opts: Options,
    kept: &mut Kept,
) -> Result<Outcome, NoMemory>
    requires sound { IsSound (frame_term frame.now) }
    requires budget { 1 ≤ opts.budget }
    requires some { 1 ≤ opts.size_cap }
    requires cap { opts.size_cap ≤ ELEMENT_LIMIT }
    requires kept { IsKept (frame_term frame.now) kept.old }
    requires made { IsMade world.old object }
    ensures step { IfOk result (λ outcome. CallStep world.old object (frame_term frame.now) number opts outcome world.new) }
    // A question is given up only over many bits, and there is no more than one encoding for each phase.
    ensures bits { IfOk result (GivesUpOverMany (frame_term frame.now) opts) }
    ensures few { IfOk result HasFewEncodings }
    ensures shared { IfOk result NameOneAPhase }
    ensures fits { OnOk result (FitsClass (frame_term frame.now).class (object_of world.old object) → FitsClass (frame_term frame.now).class (object_of world.new object)) }
    ensures kept { OnOk result (IsKept (frame_term frame.now) kept.new) }
    ensures failed { OnErr result (world.new ≡ world.old) }
{
    let found = answer_in(alloc, frame, world, object, number, opts, kept)?;
    let Answer { outcome, change } = found;
    write(world, object, change);
    Ok(outcome)
}

/// One call of `randomize` (IEEE 1800-2017, 18.6) on an object, in its frame, for which nothing is kept. All memory is taken before the world is changed.
pub fn randomize(
    alloc: Global,
    world: &mut World,
    object: u32,
    frame: &Frame,
    number: u64,
    opts: Options,
) -> Result<Outcome, NoMemory>
    requires sound { IsSound (frame_term frame.now) }
    requires budget { 1 ≤ opts.budget }
    requires some { 1 ≤ opts.size_cap }
    requires cap { opts.size_cap ≤ ELEMENT_LIMIT }
    requires made { IsMade world.old object }
    ensures step { IfOk result (λ outcome. CallStep world.old object (frame_term frame.now) number opts outcome world.new) }
    // A question is given up only over many bits, and there is no more than one encoding for each phase.
    ensures bits { IfOk result (GivesUpOverMany (frame_term frame.now) opts) }
    ensures few { IfOk result HasFewEncodings }
    ensures shared { IfOk result NameOneAPhase }
    ensures fits { OnOk result (FitsClass (frame_term frame.now).class (object_of world.old object) → FitsClass (frame_term frame.now).class (object_of world.new object)) }
    ensures failed { OnErr result (world.new ≡ world.old) }
{
    let mut kept = Kept::new();
    let outcome = randomize_again(alloc, world, object, frame, number, opts, &mut kept);
    drop(kept);
    outcome
}
