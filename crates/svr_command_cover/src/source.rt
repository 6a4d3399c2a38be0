// The answer to the text that a source has.
ghost use Rattle.std.specs.Prelude.{◌≡◌, ◌≤◌, ◌⊎◌, IfSome};
ghost use Rattle.svr_edge.specs.Causes.{Rose};
ghost use Rattle.svr_limits.specs.declared.limit.TheConstants.{TEXT_LIMIT};
ghost use Rattle.svr_run.specs.CanRun.{AreAllowed};
ghost use Rattle.svr_run.specs.Telling.{sinks};
ghost use Rattle.svr_status.specs.Writing.{Writing, HasRead, HasReadText};
ghost use Rattle.svr_command_cover.specs.Answers.{CoverAnswers, CoverMayTell};

use crate::answer::answer;
use std::alloc::Global;
use svr_edge::{ReadEnd, Sink, Source, read_text};
use svr_limits::TEXT_LIMIT;
use svr_phase::Options;
use svr_refusal::Refusal;
use svr_status::{Status, refuse};

/// The run of the script behind the cover groups of the text that a source has, and their report.
pub fn cover_source<S: Source, K: Sink, J: Sink>(
    alloc: Global,
    opts: Options,
    src: &mut S,
    out: &mut K,
    journal: &mut J,
) -> Status
    requires { AreAllowed opts }
    ensures writing { IfSome (S.left src.old) (λ text.
        Writing (CoverAnswers opts text) (CoverMayTell opts text) result
        (sinks (K.written out.old) (K.faults out.old) (J.written journal.old) (J.faults journal.old))
        (sinks (K.written out.new) (K.faults out.new) (J.written journal.new) (J.faults journal.new))) }
    ensures extent { IfSome (S.left src.old) (λ text. HasReadText TEXT_LIMIT text result (S.left src.old) (S.left src.new)) }
    ensures command { result ≡ Status.Usage → ⊥ }
    ensures read { HasRead TEXT_LIMIT result (S.left src.old) (S.left src.new) }
    ensures read_fault { result ≡ Status.ReadFault → Rose (S.faults src.old) (S.faults src.new) }
    ensures write_fault { result ≡ Status.WriteFault → Rose (K.faults out.old) (K.faults out.new) ⊎ Rose (J.faults journal.old) (J.faults journal.new) }
    ensures source_faults { S.faults src.old ≤ S.faults src.new }
    ensures out_faults { K.faults out.old ≤ K.faults out.new }
    ensures journal_faults { J.faults journal.old ≤ J.faults journal.new }
{
    match read_text(alloc, src, TEXT_LIMIT) {
        Ok(text) => answer(alloc, opts, &text, out, journal),
        Err(ReadEnd::TooLong) => refuse(alloc, out, Refusal::TooLong),
        Err(ReadEnd::Failed) => Status::ReadFault,
        Err(ReadEnd::NoMemory) => Status::NoMemory,
    }
}
