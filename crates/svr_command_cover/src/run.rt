// The run of a script whose samples are counted.
ghost use Rattle.std.specs.Prelude.{◌≡◌, ℕ, List};
ghost use Rattle.svr_typed.specs.StmtTerm.{design_term};
ghost use Rattle.svr_design.specs.Lawful.{IsLawful};
ghost use Rattle.svr_run.specs.CanRun.{AreAllowed};
ghost use Rattle.svr_run.specs.Telling.{sinks};
ghost use Rattle.svr_command_cover.specs.Parts as spec;
ghost use Rattle.svr_command_cover.specs.Parts.{IsFresh, IsPrepared, Answered};

use crate::tell::tell_counters;
use std::alloc::Global;
use svr_answer::status_of;
use svr_coverage::Counters;
use svr_edge::Sink;
use svr_phase::Options;
use svr_run::{End, Extra, Stop, run_watched};
use svr_status::Status;
use svr_typed::Design;

/// The status of a run that stopped, which has no report.
fn stopped_as(why: Stop) -> Status
    ensures { result ≡ spec.stopped_as why }
{
    match why {
        Stop::NoMemory => Status::NoMemory,
        Stop::WriteFault => Status::WriteFault,
    }
}

/// The run of a design, and behind it the report of what was counted over its samples, also where its last call met a limit.
pub(crate) fn run_of<K: Sink, J: Sink>(
    alloc: Global,
    opts: Options,
    design: &Design,
    counters: Counters,
    out: &mut K,
    journal: &mut J,
) -> Status
    requires lawful { IsLawful (design_term design.now) }
    requires allowed { AreAllowed opts }
    requires fresh { IsFresh counters.cover }
    ensures { (text : List ℕ) → IsPrepared text (design_term design.now) counters → Answered opts text result
        (sinks (K.written out.old) (K.faults out.old) (J.written journal.old) (J.faults journal.old))
        (sinks (K.written out.new) (K.faults out.new) (J.written journal.new) (J.faults journal.new)) }
{
    let extra = Extra {
        conflicts: false,
        lrat: false,
    };
    let Counters { cover, names } = counters;
    let named = names.as_slice();
    let (end, behind) = run_watched(alloc, design, opts, extra, cover, out, journal);
    match end {
        End::Ended(counts) => tell_counters(alloc, named, behind, status_of(counts), out),
        End::Limit => tell_counters(alloc, named, behind, Status::Limited, out),
        End::Stopped(why) => stopped_as(why),
    }
}
