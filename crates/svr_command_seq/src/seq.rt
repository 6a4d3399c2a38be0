// The lines of a text of `randsequence`, or its refusal.
ghost use Rattle.std.specs.Prelude.{◌≡◌, ◌≤◌, ◌⊎◌, ℕ, List, IfSome, length};
ghost use Rattle.std.specs.declared.option.Option.{Option};
ghost use Rattle.std.specs.Io.KnownBytes.{Appends, Keeps};
ghost use Rattle.svr_edge.specs.Causes.{Rose};
ghost use Rattle.svr_edge.specs.Known.{AppendsFront};
ghost use Rattle.svr_limits.specs.declared.limit.TheConstants.{TEXT_LIMIT};
ghost use Rattle.svr_run.specs.Telling.{sinks};
ghost use Rattle.svr_status.specs.Lines as spec;
ghost use Rattle.svr_status.specs.Writing.{Writing, HasRead, HasReadText};
ghost use Rattle.svr_command_seq.specs.Answers.{SeqAnswers, SeqMayTell};

use std::alloc::{AllocError, Global};
use svr_edge::{ReadEnd, Sink, Source, read_text};
use svr_limits::TEXT_LIMIT;
use svr_refusal::{Place, Refusal};
use svr_seq_lines::{End, Stop, write_lines};
use svr_status::{Status, finish, refuse, refused_as};

/// The refusal of a text under this number at a place.
fn refused<K: Sink>(alloc: Global, place: Place, number: u8, out: &mut K) -> Status
    ensures ends { ((result ≡ Status.Refused) × Appends (K.written out.old) (K.written out.new) (spec.refused_as place number))
        ⊎ (((result ≡ Status.WriteFault) × AppendsFront (K.written out.old) (K.written out.new) (spec.refused_as place number) × Rose (K.faults out.old) (K.faults out.new))
        ⊎ ((result ≡ Status.NoMemory) × Keeps (K.written out.old) (K.written out.new))) }
    ensures faults { K.faults out.old ≤ K.faults out.new }
{
    match refused_as(alloc, place, number) {
        Ok(line) => finish(out, &line, Status::Refused),
        Err(AllocError) => Status::NoMemory,
    }
}

/// So many lines of a text of at most 4,194,304 bytes, or its refusal.
fn answer<K: Sink>(alloc: Global, seed: u64, count: u32, text: &[u8], out: &mut K) -> Status
    requires { length text.now ≤ TEXT_LIMIT }
    ensures writing { (journal : Option (List ℕ)) (n : ℕ) → Writing (SeqAnswers seed count text.now) (SeqMayTell seed count text.now) result
        (sinks (K.written out.old) (K.faults out.old) journal n) (sinks (K.written out.new) (K.faults out.new) journal n) }
    ensures command { result ≡ Status.Usage → ⊥ }
    ensures read { result ≡ Status.ReadFault → ⊥ }
    ensures cause { result ≡ Status.WriteFault → Rose (K.faults out.old) (K.faults out.new) }
    ensures faults { K.faults out.old ≤ K.faults out.new }
{
    match write_lines(alloc, text, seed, count, out) {
        Ok(End::Whole) => Status::AllOne,
        Ok(End::Limited) => Status::Limited,
        Ok(End::Refused { number, place }) => refused(alloc, place, number, out),
        Err(Stop::NoMemory) => Status::NoMemory,
        Err(Stop::WriteFault) => Status::WriteFault,
    }
}

/// So many lines of the text that a source has. Nothing goes to the journal.
pub fn seq_source<S: Source, K: Sink>(
    alloc: Global,
    seed: u64,
    count: u32,
    src: &mut S,
    out: &mut K,
) -> Status
    ensures writing { (journal : Option (List ℕ)) (n : ℕ) → IfSome (S.left src.old) (λ text.
        Writing (SeqAnswers seed count text) (SeqMayTell seed count text) result
        (sinks (K.written out.old) (K.faults out.old) journal n) (sinks (K.written out.new) (K.faults out.new) journal n)) }
    ensures extent { IfSome (S.left src.old) (λ text. HasReadText TEXT_LIMIT text result (S.left src.old) (S.left src.new)) }
    ensures command { result ≡ Status.Usage → ⊥ }
    ensures read { HasRead TEXT_LIMIT result (S.left src.old) (S.left src.new) }
    ensures read_fault { result ≡ Status.ReadFault → Rose (S.faults src.old) (S.faults src.new) }
    ensures write_fault { result ≡ Status.WriteFault → Rose (K.faults out.old) (K.faults out.new) }
    ensures source_faults { S.faults src.old ≤ S.faults src.new }
    ensures out_faults { K.faults out.old ≤ K.faults out.new }
{
    match read_text(alloc, src, TEXT_LIMIT) {
        Ok(text) => answer(alloc, seed, count, &text, out),
        Err(ReadEnd::TooLong) => refuse(alloc, out, Refusal::TooLong),
        Err(ReadEnd::Failed) => Status::ReadFault,
        Err(ReadEnd::NoMemory) => Status::NoMemory,
    }
}
