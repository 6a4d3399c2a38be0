// A call, and one that is repeated (IEEE 1800-2017, 12.7.3 and 18.6). Its frame is made once: between two turns nothing of it changes but the state. The items of its last phase, closed or as clauses, are kept from turn to turn, where they read the same numbers.

ghost use Rattle.std.specs.Prelude.{◌≡◌, ◌∷◌, [], false, OnOk, IfErr, IfSome};
ghost use Rattle.svr_typed.specs.StmtTerm as term;
ghost use Rattle.svr_typed.specs.StmtTerm.{call_term, design_term, stmt_term};
ghost use Rattle.svr_effect.specs.Inherited.{AreClasses};
ghost use Rattle.svr_frame.specs.Frame.{frame_term};
ghost use Rattle.svr_script.specs.Statement.{times};
ghost use Rattle.svr_randomize.specs.Kept.{IsKept};
ghost use Rattle.svr_run.specs.CanRun.{AreAllowed, CanRun};
ghost use Rattle.svr_run.specs.Telling.{sinks};
ghost use Rattle.svr_run.specs.Watching.{watcher};
ghost use Rattle.svr_run.specs.Reached.{Breaks, Goes, IsBefore};
ghost use Rattle.svr_run.specs.Repeating.{IsFrameOf};

use crate::call::answer;
use crate::script::Script;
use crate::stop::Stop;
use crate::watched::Watched;
use std::alloc::Global;
use svr_edge::Sink;
use svr_frame::Frame;
use svr_frame_of::{make_frame, renew};
use svr_randomize::Kept;
use svr_typed::{CallStmt, TStmt};
use svr_world::Watch;

/// The call that a statement is, if it is one.
pub(crate) fn called(stmt: &TStmt) -> Option<&CallStmt>
    ensures { IfSome result (λ call. stmt_term stmt.now ≡ term.call (call_term call.now)) }
{
    match stmt {
        TStmt::Call(call) => Some(call),
        TStmt::Make(_)
        | TStmt::SetVar(_, _)
        | TStmt::SetProp { .. }
        | TStmt::Resize { .. }
        | TStmt::Pattern { .. }
        | TStmt::RandMode { .. }
        | TStmt::ConstraintMode { .. }
        | TStmt::Repeat(_, _)
        | TStmt::List(_) => None,
    }
}

/// One turn, but none behind a limit: the call is made in a frame that it had before, with what was kept there.
fn one_turn<K: Sink, J: Sink, W: Watch>(
    alloc: Global,
    script: &Script<'_>,
    run: &mut Watched<W>,
    call: &CallStmt,
    frame: &mut Frame,
    kept: &mut Kept,
    out: &mut K,
    journal: &mut J,
) -> Result<(), Stop>
    requires allowed { AreAllowed script.now.opts }
    requires can_run { CanRun (design_term script.now.design.now) script.now.opts }
    requires framed { IsFrameOf (design_term script.now.design.now) run.old.progress.world (call_term call.now) (frame_term frame.old) }
    requires kept { IsKept (frame_term frame.old) kept.old }
    requires before { IsBefore (watcher W.content W.step W.left) (design_term script.now.design.now) script.now.opts script.now.extra (term.call (call_term call.now) ∷ []) run.old
        (sinks (K.written out.old) (K.faults out.old) (J.written journal.old) (J.faults journal.old)) }
    ensures framed { OnOk result (IsFrameOf (design_term script.now.design.now) run.new.progress.world (call_term call.now) (frame_term frame.new)) }
    ensures kept { OnOk result (IsKept (frame_term frame.new) kept.new) }
    ensures goes { OnOk result (Goes (watcher W.content W.step W.left) (design_term script.now.design.now) script.now.opts script.now.extra (term.call (call_term call.now) ∷ []) run.old
        (sinks (K.written out.old) (K.faults out.old) (J.written journal.old) (J.faults journal.old)) run.new
        (sinks (K.written out.new) (K.faults out.new) (J.written journal.new) (J.faults journal.new))) }
    ensures breaks { IfErr result (λ why. Breaks (watcher W.content W.step W.left) (design_term script.now.design.now) script.now.opts script.now.extra (term.call (call_term call.now) ∷ []) run.old
        (sinks (K.written out.old) (K.faults out.old) (J.written journal.old) (J.faults journal.old)) why
        (sinks (K.written out.new) (K.faults out.new) (J.written journal.new) (J.faults journal.new))) }
{
    if run.progress.limited {
        return Ok(());
    }
    renew(alloc, frame, &run.progress.world, call.object)?;
    answer(alloc, script, run, call, &*frame, kept, out, journal)
}

/// So many turns.
fn take_turns<K: Sink, J: Sink, W: Watch>(
    alloc: Global,
    script: &Script<'_>,
    run: &mut Watched<W>,
    count: u32,
    call: &CallStmt,
    frame: &mut Frame,
    kept: &mut Kept,
    out: &mut K,
    journal: &mut J,
) -> Result<(), Stop>
    requires allowed { AreAllowed script.now.opts }
    requires can_run { CanRun (design_term script.now.design.now) script.now.opts }
    requires framed { IsFrameOf (design_term script.now.design.now) run.old.progress.world (call_term call.now) (frame_term frame.old) }
    requires kept { IsKept (frame_term frame.old) kept.old }
    requires before { IsBefore (watcher W.content W.step W.left) (design_term script.now.design.now) script.now.opts script.now.extra (times count (term.call (call_term call.now) ∷ [])) run.old
        (sinks (K.written out.old) (K.faults out.old) (J.written journal.old) (J.faults journal.old)) }
    ensures goes { OnOk result (Goes (watcher W.content W.step W.left) (design_term script.now.design.now) script.now.opts script.now.extra (times count (term.call (call_term call.now) ∷ [])) run.old
        (sinks (K.written out.old) (K.faults out.old) (J.written journal.old) (J.faults journal.old)) run.new
        (sinks (K.written out.new) (K.faults out.new) (J.written journal.new) (J.faults journal.new))) }
    ensures breaks { IfErr result (λ why. Breaks (watcher W.content W.step W.left) (design_term script.now.design.now) script.now.opts script.now.extra (times count (term.call (call_term call.now) ∷ [])) run.old
        (sinks (K.written out.old) (K.faults out.old) (J.written journal.old) (J.faults journal.old)) why
        (sinks (K.written out.new) (K.faults out.new) (J.written journal.new) (J.faults journal.new))) }
{
    for _time in 0..count {
        one_turn(alloc, script, run, call, frame, kept, out, journal)?;
    }
    Ok(())
}

/// Executes a call so many times, but none behind a limit: makes its frame, and then the call.
pub(crate) fn repeat_call<K: Sink, J: Sink, W: Watch>(
    alloc: Global,
    script: &Script<'_>,
    run: &mut Watched<W>,
    count: u32,
    call: &CallStmt,
    out: &mut K,
    journal: &mut J,
) -> Result<(), Stop>
    requires classes { AreClasses (design_term script.now.design.now) script.now.classes.now }
    requires allowed { AreAllowed script.now.opts }
    requires can_run { CanRun (design_term script.now.design.now) script.now.opts }
    requires going { run.old.progress.limited ≡ false }
    requires before { IsBefore (watcher W.content W.step W.left) (design_term script.now.design.now) script.now.opts script.now.extra (times count (term.call (call_term call.now) ∷ [])) run.old
        (sinks (K.written out.old) (K.faults out.old) (J.written journal.old) (J.faults journal.old)) }
    ensures goes { OnOk result (Goes (watcher W.content W.step W.left) (design_term script.now.design.now) script.now.opts script.now.extra (times count (term.call (call_term call.now) ∷ [])) run.old
        (sinks (K.written out.old) (K.faults out.old) (J.written journal.old) (J.faults journal.old)) run.new
        (sinks (K.written out.new) (K.faults out.new) (J.written journal.new) (J.faults journal.new))) }
    ensures breaks { IfErr result (λ why. Breaks (watcher W.content W.step W.left) (design_term script.now.design.now) script.now.opts script.now.extra (times count (term.call (call_term call.now) ∷ [])) run.old
        (sinks (K.written out.old) (K.faults out.old) (J.written journal.old) (J.faults journal.old)) why
        (sinks (K.written out.new) (K.faults out.new) (J.written journal.new) (J.faults journal.new))) }
{
    if count == 0 {
        return Ok(());
    }
    let flat = script.classes.of_var(script.design, call.object);
    let mut frame = make_frame(alloc, script.design, flat, &run.progress.world, call)?;
    let mut kept = Kept::new();
    let told = take_turns(
        alloc, script, run, count, call, &mut frame, &mut kept, out, journal,
    );
    drop(kept);
    drop(frame);
    told
}
