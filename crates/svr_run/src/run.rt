// A whole run.

ghost use Rattle.std.specs.Prelude.{◌≡◌, ◌≤◌, length, Some, IfOk, IfErr};
ghost use Rattle.std.specs.Option.{option_map};
ghost use Rattle.svr_typed.specs.StmtTerm.{design_term};
ghost use Rattle.svr_effect.specs.Inherited.{AreClasses};
ghost use Rattle.svr_script.specs.Run.{statements};
ghost use Rattle.svr_run.specs.CanRun.{AreAllowed, CanRun};
ghost use Rattle.svr_run.specs.Ends as spec;
ghost use Rattle.svr_run.specs.Ends.{Ends, Watches};
ghost use Rattle.svr_run.specs.Telling.{no_extra, sinks};
ghost use Rattle.svr_run.specs.Watching.{taken};
ghost use Rattle.svr_run.specs.Reached.{Stops};

use crate::extra::Extra;
use crate::progress::{Counts, Progress};
use crate::script::Script;
use crate::stop::Stop;
use crate::walk::walk_all;
use crate::watched::{NoWatch, Watched};
use std::alloc::Global;
use svr_edge::Sink;
use svr_effect::Classes;
use svr_phase::Options;
use svr_typed::Design;
use svr_world::Watch;

/// How a run ends: it came to its end, with so many answers; its last call met a limit; or it stopped before.
#[derive(Clone, Copy)]
pub enum End {
    Ended(Counts),
    Limit,
    Stopped(Stop),
}

/// How a run that has no more statements to execute has ended.
fn end_of(progress: &Progress) -> End
    ensures { result ≡ spec.end_of progress.now }
{
    if progress.limited {
        End::Limit
    } else {
        End::Ended(progress.counts)
    }
}

/// The run of a script whose classes are made. The watch is handed back.
fn run_with<K: Sink, J: Sink, W: Watch + Drop>(
    alloc: Global,
    script: &Script<'_>,
    watch: W,
    out: &mut K,
    journal: &mut J,
) -> Result<(End, W), Stop>
    requires classes { AreClasses (design_term script.now.design.now) script.now.classes.now }
    requires allowed { AreAllowed script.now.opts }
    requires can_run { CanRun (design_term script.now.design.now) script.now.opts }
    requires room { length (statements (design_term script.now.design.now)) ≤ W.left watch }
    ensures ends { IfOk result (λ ran. Watches (taken W.step) (W.content watch) (Some (W.content ran.1)) (design_term script.now.design.now) script.now.opts script.now.extra ran.0
        (sinks (K.written out.old) (K.faults out.old) (J.written journal.old) (J.faults journal.old))
        (sinks (K.written out.new) (K.faults out.new) (J.written journal.new) (J.faults journal.new))) }
    ensures stops { IfErr result (λ why. Stops (design_term script.now.design.now) script.now.opts script.now.extra
        (sinks (K.written out.old) (K.faults out.old) (J.written journal.old) (J.faults journal.old)) why
        (sinks (K.written out.new) (K.faults out.new) (J.written journal.new) (J.faults journal.new))) }
{
    let progress = Progress::begin(alloc, script.design)?;
    let mut run = Watched { progress, watch };
    let stmts = script.design.stmts.as_slice();
    walk_all(alloc, script, &mut run, stmts, out, journal)?;
    let end = end_of(&run.progress);
    Ok((end, run.watch))
}

/// The run of a script. The watch is handed back.
fn ran<K: Sink, J: Sink, W: Watch + Drop>(
    alloc: Global,
    design: &Design,
    opts: Options,
    extra: Extra,
    watch: W,
    out: &mut K,
    journal: &mut J,
) -> Result<(End, W), Stop>
    requires allowed { AreAllowed opts }
    requires can_run { CanRun (design_term design.now) opts }
    requires room { length (statements (design_term design.now)) ≤ W.left watch }
    ensures ends { IfOk result (λ ran. Watches (taken W.step) (W.content watch) (Some (W.content ran.1)) (design_term design.now) opts extra ran.0
        (sinks (K.written out.old) (K.faults out.old) (J.written journal.old) (J.faults journal.old))
        (sinks (K.written out.new) (K.faults out.new) (J.written journal.new) (J.faults journal.new))) }
    ensures stops { IfErr result (λ why. Stops (design_term design.now) opts extra
        (sinks (K.written out.old) (K.faults out.old) (J.written journal.old) (J.faults journal.old)) why
        (sinks (K.written out.new) (K.faults out.new) (J.written journal.new) (J.faults journal.new))) }
{
    let classes = Classes::new(alloc, design)?;
    let script = Script {
        design,
        classes: &classes,
        opts,
        extra,
    };
    run_with(alloc, &script, watch, out, journal)
}

/// Runs a script as `run_script_extra` does, while a watch takes a sample behind each call that answers 1: the class of the object, and its numbers then. The watch can take one of each statement.
///
/// With `Ended` and `Limit` the watch is handed back, and what it tells is what it told, one step further by each of these samples in their order.
pub fn run_watched<K: Sink, J: Sink, W: Watch + Drop>(
    alloc: Global,
    design: &Design,
    opts: Options,
    extra: Extra,
    watch: W,
    out: &mut K,
    journal: &mut J,
) -> (End, Option<W>)
    requires allowed { AreAllowed opts }
    requires can_run { CanRun (design_term design.now) opts }
    requires room { length (statements (design_term design.now)) ≤ W.left watch }
    ensures { Watches (taken W.step) (W.content watch) (option_map W.content result.1) (design_term design.now) opts extra result.0
        (sinks (K.written out.old) (K.faults out.old) (J.written journal.old) (J.faults journal.old))
        (sinks (K.written out.new) (K.faults out.new) (J.written journal.new) (J.faults journal.new)) }
{
    match ran(alloc, design, opts, extra, watch, out, journal) {
        Ok((end, watch)) => (end, Some(watch)),
        Err(why) => (End::Stopped(why), None),
    }
}

/// Runs a script to its end, or up to a limit: what its calls tell, and what is asked for besides, is written to `out` call by call, and the log of each question that was given up to `journal`.
///
/// With `Ended` and `Limit` all of it was written, and no sink failed. A run stops before its end only where an allocation was refused or where the count of faults of a sink rose; what is written then is a front of what a run so far tells.
pub fn run_script_extra<K: Sink, J: Sink>(
    alloc: Global,
    design: &Design,
    opts: Options,
    extra: Extra,
    out: &mut K,
    journal: &mut J,
) -> End
    requires allowed { AreAllowed opts }
    requires can_run { CanRun (design_term design.now) opts }
    ensures { Ends (design_term design.now) opts extra result
        (sinks (K.written out.old) (K.faults out.old) (J.written journal.old) (J.faults journal.old))
        (sinks (K.written out.new) (K.faults out.new) (J.written journal.new) (J.faults journal.new)) }
{
    let watch = NoWatch { left: u64::MAX };
    let (end, _watch) = run_watched(alloc, design, opts, extra, watch, out, journal);
    end
}

/// Runs a script as `run_script_extra` does, with nothing asked for besides.
pub fn run_script<K: Sink, J: Sink>(
    alloc: Global,
    design: &Design,
    opts: Options,
    out: &mut K,
    journal: &mut J,
) -> End
    requires allowed { AreAllowed opts }
    requires can_run { CanRun (design_term design.now) opts }
    ensures { Ends (design_term design.now) opts no_extra result
        (sinks (K.written out.old) (K.faults out.old) (J.written journal.old) (J.faults journal.old))
        (sinks (K.written out.new) (K.faults out.new) (J.written journal.new) (J.faults journal.new)) }
{
    let extra = Extra {
        conflicts: false,
        lrat: false,
    };
    run_script_extra(alloc, design, opts, extra, out, journal)
}
