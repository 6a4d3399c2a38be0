// Statements other than calls.

ghost use Rattle.std.specs.Prelude.{◌≡◌, false, true, OnOk, IfErr};
ghost use Rattle.svr_typed.specs.StmtTerm.{design_term, stmt_term};
ghost use Rattle.svr_effect.specs.Inherited.{AreClasses};
ghost use Rattle.svr_script.specs.Statement.{in_order};
ghost use Rattle.svr_run.specs.CanRun.{CanRun, is_plain};
ghost use Rattle.svr_run.specs.Telling.{Sinks};
ghost use Rattle.svr_run.specs.Watching.{watcher};
ghost use Rattle.svr_run.specs.Reached.{Breaks, Goes, IsBefore};

use crate::script::Script;
use crate::stop::Stop;
use crate::watched::Watched;
use std::alloc::Global;
use svr_effect::execute;
use svr_typed::TStmt;
use svr_world::Watch;

/// Executes a statement that is neither a call nor made of others. It tells nothing.
pub(crate) fn execute_plain<W: Watch>(
    alloc: Global,
    script: &Script<'_>,
    run: &mut Watched<W>,
    stmt: &TStmt,
) -> Result<(), Stop>
    requires classes { AreClasses (design_term script.now.design.now) script.now.classes.now }
    requires can_run { CanRun (design_term script.now.design.now) script.now.opts }
    requires plain { is_plain (stmt_term stmt.now) ≡ true }
    requires going { run.old.progress.limited ≡ false }
    requires before { (now : Sinks) × IsBefore (watcher W.content W.step W.left) (design_term script.now.design.now) script.now.opts script.now.extra (in_order (stmt_term stmt.now)) run.old now }
    ensures goes { OnOk result ((now : Sinks) → Goes (watcher W.content W.step W.left) (design_term script.now.design.now) script.now.opts script.now.extra (in_order (stmt_term stmt.now)) run.old now run.new now) }
    ensures breaks { IfErr result (λ why. (now : Sinks) → Breaks (watcher W.content W.step W.left) (design_term script.now.design.now) script.now.opts script.now.extra (in_order (stmt_term stmt.now)) run.old now why now) }
{
    execute(
        alloc,
        script.design,
        script.classes,
        &mut run.progress.world,
        stmt,
    )?;
    Ok(())
}
