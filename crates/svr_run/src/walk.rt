// The statements of a script in their order (IEEE 1800-2017, 9.3.1 and 12.7.3).

ghost use Rattle.std.specs.Prelude.{◌≡◌, OnOk, IfErr};
ghost use Rattle.svr_typed.specs.StmtTerm.{design_term, stmt_term, stmt_terms};
ghost use Rattle.svr_effect.specs.Inherited.{AreClasses};
ghost use Rattle.svr_script.specs.Statement.{in_order, all_in_order};
ghost use Rattle.svr_run.specs.CanRun.{AreAllowed, CanRun};
ghost use Rattle.svr_run.specs.Telling.{sinks};
ghost use Rattle.svr_run.specs.Watching.{watcher};
ghost use Rattle.svr_run.specs.Reached.{Breaks, Goes, IsBefore};

use crate::plain::execute_plain;
use crate::script::Script;
use crate::stop::Stop;
use crate::turns::{called, repeat_call};
use crate::watched::Watched;
use std::alloc::Global;
use svr_edge::Sink;
use svr_typed::TStmt;
use svr_world::Watch;

/// Executes a statement, but nothing behind a limit.
#[cycle(walk)]
fn walk_one<K: Sink, J: Sink, W: Watch>(
    alloc: Global,
    script: &Script<'_>,
    run: &mut Watched<W>,
    stmt: &TStmt,
    out: &mut K,
    journal: &mut J,
) -> Result<(), Stop>
    requires classes { AreClasses (design_term script.now.design.now) script.now.classes.now }
    requires allowed { AreAllowed script.now.opts }
    requires can_run { CanRun (design_term script.now.design.now) script.now.opts }
    requires before { IsBefore (watcher W.content W.step W.left) (design_term script.now.design.now) script.now.opts script.now.extra (in_order (stmt_term stmt.now)) run.old
        (sinks (K.written out.old) (K.faults out.old) (J.written journal.old) (J.faults journal.old)) }
    ensures goes { OnOk result (Goes (watcher W.content W.step W.left) (design_term script.now.design.now) script.now.opts script.now.extra (in_order (stmt_term stmt.now)) run.old
        (sinks (K.written out.old) (K.faults out.old) (J.written journal.old) (J.faults journal.old)) run.new
        (sinks (K.written out.new) (K.faults out.new) (J.written journal.new) (J.faults journal.new))) }
    ensures breaks { IfErr result (λ why. Breaks (watcher W.content W.step W.left) (design_term script.now.design.now) script.now.opts script.now.extra (in_order (stmt_term stmt.now)) run.old
        (sinks (K.written out.old) (K.faults out.old) (J.written journal.old) (J.faults journal.old)) why
        (sinks (K.written out.new) (K.faults out.new) (J.written journal.new) (J.faults journal.new))) }
{
    if run.progress.limited {
        return Ok(());
    }
    match stmt {
        TStmt::Call(call) => repeat_call(alloc, script, run, 1, call, out, journal),
        TStmt::Repeat(count, body) => {
            let inside = body.get();
            if let Some(call) = called(inside) {
                return repeat_call(alloc, script, run, *count, call, out, journal);
            }
            for _turn in 0..*count {
                walk_one(alloc, script, run, inside, out, journal)?;
            }
            Ok(())
        }
        TStmt::List(stmts) => walk_all(alloc, script, run, stmts.as_slice(), out, journal),
        TStmt::Make(_)
        | TStmt::SetVar(_, _)
        | TStmt::SetProp { .. }
        | TStmt::Resize { .. }
        | TStmt::Pattern { .. }
        | TStmt::RandMode { .. }
        | TStmt::ConstraintMode { .. } => execute_plain(alloc, script, run, stmt),
    }
}

/// Executes statements one after the other, but nothing behind a limit.
#[cycle(walk)]
pub(crate) fn walk_all<K: Sink, J: Sink, W: Watch>(
    alloc: Global,
    script: &Script<'_>,
    run: &mut Watched<W>,
    stmts: &[TStmt],
    out: &mut K,
    journal: &mut J,
) -> Result<(), Stop>
    requires classes { AreClasses (design_term script.now.design.now) script.now.classes.now }
    requires allowed { AreAllowed script.now.opts }
    requires can_run { CanRun (design_term script.now.design.now) script.now.opts }
    requires before { IsBefore (watcher W.content W.step W.left) (design_term script.now.design.now) script.now.opts script.now.extra (all_in_order (stmt_terms stmts.now)) run.old
        (sinks (K.written out.old) (K.faults out.old) (J.written journal.old) (J.faults journal.old)) }
    ensures goes { OnOk result (Goes (watcher W.content W.step W.left) (design_term script.now.design.now) script.now.opts script.now.extra (all_in_order (stmt_terms stmts.now)) run.old
        (sinks (K.written out.old) (K.faults out.old) (J.written journal.old) (J.faults journal.old)) run.new
        (sinks (K.written out.new) (K.faults out.new) (J.written journal.new) (J.faults journal.new))) }
    ensures breaks { IfErr result (λ why. Breaks (watcher W.content W.step W.left) (design_term script.now.design.now) script.now.opts script.now.extra (all_in_order (stmt_terms stmts.now)) run.old
        (sinks (K.written out.old) (K.faults out.old) (J.written journal.old) (J.faults journal.old)) why
        (sinks (K.written out.new) (K.faults out.new) (J.written journal.new) (J.faults journal.new))) }
{
    for stmt in stmts {
        walk_one(alloc, script, run, stmt, out, journal)?;
    }
    Ok(())
}
