// The answer to a text that was read.
ghost use Rattle.std.specs.Prelude.{◌≤◌, length, IfOk};
ghost use Rattle.svr_limits.specs.declared.limit.TheConstants.{TEXT_LIMIT};
ghost use Rattle.svr_typed.specs.StmtTerm.{design_term};
ghost use Rattle.svr_run.specs.CanRun.{AreAllowed};
ghost use Rattle.svr_run.specs.Telling.{sinks};
ghost use Rattle.svr_refused.specs.Texts.{HasDesign};
ghost use Rattle.svr_refused.specs.Comes.{ComesTo};
ghost use Rattle.svr_coverage.specs.Script.{script_of};
ghost use Rattle.svr_coverage.specs.Front.{BeginsWith};
ghost use Rattle.svr_command_cover.specs.Parts.{Answered};

use crate::run::run_of;
use crate::tell::tell_fault;
use std::alloc::{AllocError, Global};
use svr_coverage::{Front, make_counters, read_front, script_of};
use svr_edge::Sink;
use svr_phase::Options;
use svr_refused::{Reading, read};
use svr_status::{Status, finish};
use svr_token::Names;
use svr_typed::Design;

/// The answer to a text whose groups and script were read: the run and its report, or what is refused in the groups.
fn with_design<K: Sink, J: Sink>(
    alloc: Global,
    opts: Options,
    text: &[u8],
    front: &Front,
    design: &Design,
    out: &mut K,
    journal: &mut J,
) -> Status
    requires small { length text.now ≤ TEXT_LIMIT }
    requires allowed { AreAllowed opts }
    requires begins { BeginsWith text.now front.now.tokens.items front.now.groups }
    requires read { HasDesign (script_of text.now front.now.tokens.items front.now.groups.used) (design_term design.now) }
    ensures { Answered opts text.now result
        (sinks (K.written out.old) (K.faults out.old) (J.written journal.old) (J.faults journal.old))
        (sinks (K.written out.new) (K.faults out.new) (J.written journal.new) (J.faults journal.new)) }
{
    let names = Names {
        text,
        tokens: &front.tokens,
    };
    match make_counters(alloc, names, design, front.groups.list.as_slice()) {
        Ok(counters) => run_of(alloc, opts, design, counters, out, journal),
        Err(fault) => tell_fault(alloc, fault, out),
    }
}

/// What the script behind the groups of a text comes to.
fn read_script(alloc: Global, text: &[u8], front: &Front) -> Result<Reading, AllocError>
    requires { length text.now ≤ TEXT_LIMIT }
    ensures { IfOk result (λ r. ComesTo (script_of text.now front.now.tokens.items front.now.groups.used) r) }
{
    let script = script_of(alloc, text, &front.tokens, front.groups.used)?;
    read(alloc, &script)
}

/// The answer to a text whose groups were read: what is refused in its script comes before what is refused in them.
fn with_front<K: Sink, J: Sink>(
    alloc: Global,
    opts: Options,
    text: &[u8],
    front: &Front,
    out: &mut K,
    journal: &mut J,
) -> Status
    requires small { length text.now ≤ TEXT_LIMIT }
    requires allowed { AreAllowed opts }
    requires begins { BeginsWith text.now front.now.tokens.items front.now.groups }
    ensures { Answered opts text.now result
        (sinks (K.written out.old) (K.faults out.old) (J.written journal.old) (J.faults journal.old))
        (sinks (K.written out.new) (K.faults out.new) (J.written journal.new) (J.faults journal.new)) }
{
    match read_script(alloc, text, front) {
        Ok(Reading::Accepted(design)) => {
            let status = with_design(alloc, opts, text, front, &design, out, journal);
            drop(design);
            status
        }
        Ok(Reading::Refused(line)) => finish(out, &line, Status::Refused),
        Err(AllocError) => Status::NoMemory,
    }
}

/// The answer to a text of at most 4,194,304 bytes: the run of the script behind its cover groups with their report, or its refusal.
pub(crate) fn answer<K: Sink, J: Sink>(
    alloc: Global,
    opts: Options,
    text: &[u8],
    out: &mut K,
    journal: &mut J,
) -> Status
    requires small { length text.now ≤ TEXT_LIMIT }
    requires allowed { AreAllowed opts }
    ensures { Answered opts text.now result
        (sinks (K.written out.old) (K.faults out.old) (J.written journal.old) (J.faults journal.old))
        (sinks (K.written out.new) (K.faults out.new) (J.written journal.new) (J.faults journal.new)) }
{
    match read_front(alloc, text) {
        Ok(front) => with_front(alloc, opts, text, &front, out, journal),
        Err(fault) => tell_fault(alloc, fault, out),
    }
}
