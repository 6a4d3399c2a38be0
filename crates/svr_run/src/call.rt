// Calls of `randomize` (IEEE 1800-2017, 18.6).

ghost use Rattle.std.specs.Prelude.{◌≡◌, ◌+◌, ◌<◌, ◌≤◌, ◌^◌, ◌∷◌, [], false, length, OnOk, OnErr, IfErr};
ghost use Rattle.svr_typed.specs.StmtTerm as term;
ghost use Rattle.svr_typed.specs.StmtTerm.{call_term, design_term};
ghost use Rattle.svr_frame.specs.Frame.{frame_term};
ghost use Rattle.svr_frame.specs.Sound.{IsSound};
ghost use Rattle.svr_call.specs.Items.{is_one};
ghost use Rattle.svr_randomize.specs.Kept.{IsKept};
ghost use Rattle.svr_derived.specs.Shown.{AreShown};
ghost use Rattle.svr_script.specs.Statement.{flat_of_var, frame_in};
ghost use Rattle.svr_script.specs.Run as spec;
ghost use Rattle.svr_run.specs.CanRun.{AreAllowed, CanRun};
ghost use Rattle.svr_run.specs.Telling.{Tells, TellsFront, counted, printing_of, sinks};
ghost use Rattle.svr_run.specs.Events.{AreNamed, IsCause, IsNotTold, IsTold, end_in, event_in, names_at};
ghost use Rattle.svr_run.specs.Fitting.{ZeroFits};
ghost use Rattle.svr_run.specs.Watching.{watcher};
ghost use Rattle.svr_run.specs.Reached.{Halts, IsNext, Steps, state_of};
ghost use Rattle.svr_run.specs.Repeating.{SameModes};

use crate::conflict::{Contradiction, conflict_of};
use crate::progress::{Progress, is_limit, take_answer};
use crate::script::{Script, name_of_var};
use crate::stop::Stop;
use crate::tell::{Told, tell};
use crate::watched::{Watched, sample};
use std::alloc::Global;
use svr_call::Outcome;
use svr_edge::Sink;
use svr_effect::class_of_var;
use svr_frame::Frame;
use svr_randomize::{Kept, randomize_again};
use svr_typed::CallStmt;
use svr_world::Watch;

/// What was answered is told, counted, and handed to the variable that takes it.
fn settle<K: Sink, J: Sink>(
    alloc: Global,
    script: &Script<'_>,
    progress: &mut Progress,
    call: &CallStmt,
    frame: &Frame,
    outcome: &Outcome,
    conflict: &Option<Contradiction>,
    out: &mut K,
    journal: &mut J,
) -> Result<(), Stop>
    requires few { progress.old.calls + 1 < 2 ^ 64 }
    requires counts { progress.old.counts.ones + progress.old.counts.zeros + progress.old.counts.given_up ≤ progress.old.calls }
    requires shown { AreShown outcome.now }
    requires named { AreNamed (names_at (flat_of_var (design_term script.now.design.now) call.now.object) progress.old.world (call_term call.now)) conflict.now }
    ensures state { OnOk result (state_of progress.new ≡ record { world = spec.with_answer call.now.result (is_one outcome.now) progress.old.world; calls = progress.old.calls + 1; limited = spec.is_limit outcome.now }) }
    ensures counts { OnOk result (progress.new.counts ≡ counted progress.old.counts outcome.now) }
    ensures told { OnOk result (Tells (printing_of script.now.opts script.now.extra) (event_in (design_term script.now.design.now) progress.old (call_term call.now) (frame_term frame.now) outcome.now (end_in conflict.now) ∷ [])
        (sinks (K.written out.old) (K.faults out.old) (J.written journal.old) (J.faults journal.old))
        (sinks (K.written out.new) (K.faults out.new) (J.written journal.new) (J.faults journal.new))) }
    ensures front { OnErr result (TellsFront (printing_of script.now.opts script.now.extra) (event_in (design_term script.now.design.now) progress.old (call_term call.now) (frame_term frame.now) outcome.now (end_in conflict.now) ∷ [])
        (sinks (K.written out.old) (K.faults out.old) (J.written journal.old) (J.faults journal.old))
        (sinks (K.written out.new) (K.faults out.new) (J.written journal.new) (J.faults journal.new))) }
    ensures cause { IfErr result (λ why. IsCause why
        (sinks (K.written out.old) (K.faults out.old) (J.written journal.old) (J.faults journal.old))
        (sinks (K.written out.new) (K.faults out.new) (J.written journal.new) (J.faults journal.new))) }
{
    let told = Told {
        number: progress.calls + 1,
        object: name_of_var(script.design, call.object),
        frame,
        outcome,
        after: progress.world.values(call.object),
        conflict,
    };
    tell(alloc, script.opts, script.extra, &told, out, journal)?;
    progress.calls += 1;
    progress.limited = is_limit(outcome);
    progress.counts = progress.counts.plus(outcome);
    take_answer(&mut progress.world, call.result, outcome);
    Ok(())
}

/// What was answered is told with the items that contradict each other, where they are asked for.
fn answered<K: Sink, J: Sink>(
    alloc: Global,
    script: &Script<'_>,
    progress: &mut Progress,
    call: &CallStmt,
    frame: &Frame,
    outcome: &Outcome,
    out: &mut K,
    journal: &mut J,
) -> Result<(), Stop>
    requires few { progress.old.calls + 1 < 2 ^ 64 }
    requires counts { progress.old.counts.ones + progress.old.counts.zeros + progress.old.counts.given_up ≤ progress.old.calls }
    requires budget { 1 ≤ script.now.opts.budget }
    requires class { (frame_term frame.now).class ≡ flat_of_var (design_term script.now.design.now) call.now.object }
    requires few_blocks { length (frame_term frame.now).class.blocks < 2 ^ 32 }
    requires sound { IsSound (frame_term frame.now) }
    requires fits { ZeroFits (frame_term frame.now) outcome.now }
    requires shown { AreShown outcome.now }
    ensures state { OnOk result (state_of progress.new ≡ record { world = spec.with_answer call.now.result (is_one outcome.now) progress.old.world; calls = progress.old.calls + 1; limited = spec.is_limit outcome.now }) }
    ensures counts { OnOk result (progress.new.counts ≡ counted progress.old.counts outcome.now) }
    ensures told { OnOk result (IsTold (design_term script.now.design.now) script.now.opts script.now.extra progress.old (call_term call.now) (frame_term frame.now) outcome.now
        (sinks (K.written out.old) (K.faults out.old) (J.written journal.old) (J.faults journal.old))
        (sinks (K.written out.new) (K.faults out.new) (J.written journal.new) (J.faults journal.new))) }
    ensures not_told { IfErr result (λ why. IsNotTold (design_term script.now.design.now) script.now.opts script.now.extra progress.old (call_term call.now) (frame_term frame.now) outcome.now why
        (sinks (K.written out.old) (K.faults out.old) (J.written journal.old) (J.faults journal.old))
        (sinks (K.written out.new) (K.faults out.new) (J.written journal.new) (J.faults journal.new))) }
{
    let conflict = conflict_of(
        alloc,
        script.extra.conflicts,
        &progress.world,
        call,
        frame,
        outcome,
        script.opts.budget,
    )?;
    let told = settle(
        alloc, script, progress, call, frame, outcome, &conflict, out, journal,
    );
    drop(conflict);
    told
}

/// The answer of a call in its frame, with what earlier calls there have kept. The watch takes its sample before the answer is told. No mode of the object is another one afterwards.
pub(crate) fn answer<K: Sink, J: Sink, W: Watch>(
    alloc: Global,
    script: &Script<'_>,
    run: &mut Watched<W>,
    call: &CallStmt,
    frame: &Frame,
    kept: &mut Kept,
    out: &mut K,
    journal: &mut J,
) -> Result<(), Stop>
    requires allowed { AreAllowed script.now.opts }
    requires can_run { CanRun (design_term script.now.design.now) script.now.opts }
    requires going { run.old.progress.limited ≡ false }
    requires next { IsNext (watcher W.content W.step W.left) (design_term script.now.design.now) script.now.opts script.now.extra (term.call (call_term call.now)) run.old
        (sinks (K.written out.old) (K.faults out.old) (J.written journal.old) (J.faults journal.old)) }
    requires framed { frame_term frame.now ≡ frame_in (design_term script.now.design.now) run.old.progress.world (call_term call.now) }
    requires sound { IsSound (frame_term frame.now) }
    requires kept { IsKept (frame_term frame.now) kept.old }
    ensures steps { OnOk result (Steps (watcher W.content W.step W.left) (design_term script.now.design.now) script.now.opts script.now.extra (term.call (call_term call.now)) run.old
        (sinks (K.written out.old) (K.faults out.old) (J.written journal.old) (J.faults journal.old)) run.new
        (sinks (K.written out.new) (K.faults out.new) (J.written journal.new) (J.faults journal.new))) }
    ensures modes { OnOk result (SameModes call.now.object run.old.progress.world run.new.progress.world) }
    ensures kept { OnOk result (IsKept (frame_term frame.now) kept.new) }
    ensures halts { IfErr result (λ why. Halts (watcher W.content W.step W.left) (design_term script.now.design.now) script.now.opts script.now.extra (term.call (call_term call.now)) run.old
        (sinks (K.written out.old) (K.faults out.old) (J.written journal.old) (J.faults journal.old)) why
        (sinks (K.written out.new) (K.faults out.new) (J.written journal.new) (J.faults journal.new))) }
{
    let number = run.progress.calls + 1;
    let outcome = randomize_again(
        alloc,
        &mut run.progress.world,
        call.object,
        frame,
        number,
        script.opts,
        kept,
    )?;
    let class = class_of_var(script.design, call.object);
    let values = run.progress.world.values(call.object);
    sample(&mut run.watch, class, values, &outcome);
    let told = answered(
        alloc,
        script,
        &mut run.progress,
        call,
        frame,
        &outcome,
        out,
        journal,
    );
    drop(outcome);
    told
}
