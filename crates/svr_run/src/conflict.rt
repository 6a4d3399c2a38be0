// Which items of a call contradict each other (IEEE 1800-2017, 18.5).

ghost use Rattle.std.specs.Prelude.{◌≡◌, ◌≤◌, ◌<◌, ◌^◌, length, IfOk};
ghost use Rattle.svr_typed.specs.StmtTerm.{call_term};
ghost use Rattle.svr_frame.specs.Frame.{frame_term};
ghost use Rattle.svr_frame.specs.Sound.{IsSound, SizesFit};
ghost use Rattle.svr_phase.specs.Chosen.{AreCyclicValues};
ghost use Rattle.svr_script.specs.Conflicts.{IsConflictAt, IsConflictIf, IsConflictOf};
ghost use Rattle.svr_run.specs.Events.{AreNamed, end_in, names_at};
ghost use Rattle.svr_run.specs.Fitting.{ZeroFits};

use sqlite_items::Items;
use std::alloc::Global;
use svr_call::Outcome;
use svr_conflict::{ConflictEnd, NoMemory, conflict_set};
use svr_frame::{Frame, Part};
use svr_item_names::item_names;
use svr_typed::{CallStmt, Text};
use svr_world::World;

/// How the search for items that contradict each other ended, and the names of all active items of the call.
#[derive(Drop)]
pub(crate) struct Contradiction {
    pub(crate) names: Items<Text>,
    pub(crate) end: ConflictEnd,
}

/// The search at the sizes and with the cyclic values that a call has chosen.
fn conflict_at(
    alloc: Global,
    world: &World,
    call: &CallStmt,
    frame: &Frame,
    sizes: &[u32],
    chosen: &[(u32, u64)],
    budget: u64,
) -> Result<Option<Contradiction>, NoMemory>
    requires sound { IsSound (frame_term frame.now) }
    requires few_blocks { length (frame_term frame.now).class.blocks < 2 ^ 32 }
    requires fit { SizesFit (frame_term frame.now) sizes.now }
    requires chosen { AreCyclicValues (frame_term frame.now) chosen.now }
    requires budget { 1 ≤ budget }
    ensures end { IfOk result (λ found. IsConflictAt (frame_term frame.now) sizes.now chosen.now budget (end_in found)) }
    ensures names { IfOk result (AreNamed (names_at (frame_term frame.now).class world.now (call_term call.now))) }
{
    let blocks = frame.class.blocks.as_slice();
    let in_line = call.with.as_slice();
    let names = item_names(alloc, blocks, in_line, world, call.object)?;
    let end = conflict_set(alloc, frame, chosen, sizes, budget)?;
    Ok(Some(Contradiction { names, end }))
}

/// That of a call that answered so: of a 0 in the last phase alone.
fn conflict_behind(
    alloc: Global,
    world: &World,
    call: &CallStmt,
    frame: &Frame,
    outcome: &Outcome,
    budget: u64,
) -> Result<Option<Contradiction>, NoMemory>
    requires sound { IsSound (frame_term frame.now) }
    requires few_blocks { length (frame_term frame.now).class.blocks < 2 ^ 32 }
    requires fits { ZeroFits (frame_term frame.now) outcome.now }
    requires budget { 1 ≤ budget }
    ensures end { IfOk result (λ found. IsConflictOf outcome.now (frame_term frame.now) budget (end_in found)) }
    ensures names { IfOk result (AreNamed (names_at (frame_term frame.now).class world.now (call_term call.now))) }
{
    match outcome {
        Outcome::Zero {
            phase,
            chosen,
            sizes,
            ..
        } => match phase {
            Part::Randc => Ok(None),
            Part::Sizes => Ok(None),
            Part::All => conflict_at(
                alloc,
                world,
                call,
                frame,
                sizes.as_slice(),
                chosen.as_slice(),
                budget,
            ),
        },
        Outcome::One { .. } => Ok(None),
        Outcome::GaveUp { .. } => Ok(None),
        Outcome::TooHeavy { .. } => Ok(None),
        Outcome::SizeCap { .. } => Ok(None),
    }
}

/// Which items of a call that answered so contradict each other, where that is to be told.
pub(crate) fn conflict_of(
    alloc: Global,
    wanted: bool,
    world: &World,
    call: &CallStmt,
    frame: &Frame,
    outcome: &Outcome,
    budget: u64,
) -> Result<Option<Contradiction>, NoMemory>
    requires sound { IsSound (frame_term frame.now) }
    requires few_blocks { length (frame_term frame.now).class.blocks < 2 ^ 32 }
    requires fits { ZeroFits (frame_term frame.now) outcome.now }
    requires budget { 1 ≤ budget }
    ensures end { IfOk result (λ found. IsConflictIf wanted outcome.now (frame_term frame.now) budget (end_in found)) }
    ensures names { IfOk result (AreNamed (names_at (frame_term frame.now).class world.now (call_term call.now))) }
{
    if wanted {
        conflict_behind(alloc, world, call, frame, outcome, budget)
    } else {
        Ok(None)
    }
}
