// What is written behind a run, or in place of one.
ghost use Rattle.std.specs.Prelude.{◌≡◌, [], Some, option_map};
ghost use Rattle.svr_cover.specs.Cover.{CoverTerm, cover_term};
ghost use Rattle.svr_cover_report.specs.Report.{with_groups};
ghost use Rattle.svr_status.specs.Lines as spec;
ghost use Rattle.svr_command_cover.specs.Parts.{Told, FaultTold};

use std::alloc::{AllocError, Global};
use svr_cover::Cover;
use svr_cover_report::{GroupNames, report};
use svr_coverage::CoverageFault;
use svr_edge::Sink;
use svr_refusal::Place;
use svr_status::{Status, finish, refused_as};
use svr_typed::NoMemory;

/// The refusal of a text under this number at a place.
fn refused<K: Sink>(alloc: Global, place: Place, number: u8, out: &mut K) -> Status
    ensures { Told Status.Refused (spec.refused_as place number) result (K.written out.old) (K.faults out.old) (K.written out.new) (K.faults out.new) }
{
    match refused_as(alloc, place, number) {
        Ok(line) => finish(out, &line, Status::Refused),
        Err(AllocError) => Status::NoMemory,
    }
}

/// Why there are no counters: the refusal of the groups, or want of memory.
pub(crate) fn tell_fault<K: Sink>(alloc: Global, fault: CoverageFault, out: &mut K) -> Status
    ensures { FaultTold fault result (K.written out.old) (K.faults out.old) (K.written out.new) (K.faults out.new) }
{
    match fault {
        CoverageFault::Refused { number, place } => refused(alloc, place, number, out),
        CoverageFault::NoMemory => Status::NoMemory,
    }
}

/// The report of these counts, with the status of the run before it.
fn tell<K: Sink>(
    alloc: Global,
    names: &[GroupNames],
    counts: &[u64],
    status: Status,
    out: &mut K,
) -> Status
    ensures { Told status (with_groups counts.now [] names.now) result (K.written out.old) (K.faults out.old) (K.written out.new) (K.faults out.new) }
{
    match report(alloc, names, counts) {
        Ok(text) => finish(out, &text, status),
        Err(NoMemory) => Status::NoMemory,
    }
}

/// The report of the counters that a run hands back. One that stopped hands none back.
pub(crate) fn tell_counters<K: Sink>(
    alloc: Global,
    names: &[GroupNames],
    cover: Option<Cover>,
    status: Status,
    out: &mut K,
) -> Status
    ensures { (behind : CoverTerm) → option_map cover_term cover ≡ Some behind → Told status (with_groups behind.counts [] names.now) result (K.written out.old) (K.faults out.old) (K.written out.new) (K.faults out.new) }
{
    match cover {
        Some(cover) => tell(alloc, names, cover.counts(), status, out),
        None => Status::NoMemory,
    }
}
