// A check: the verdict on a text of clauses and a hinted derivation from them.
ghost use Rattle.std.specs.Prelude.{◌≡◌, ◌≤◌, ℕ, List, IfOk, IfSome, length};
ghost use Rattle.std.specs.declared.option.Option.{Option};
ghost use Rattle.svr_edge.specs.Causes.{Rose};
ghost use Rattle.svr_lrat_text.specs.declared.limits.TheConstants.{MOST_TEXT};
ghost use Rattle.svr_run.specs.Telling.{sinks};
ghost use Rattle.svr_status.specs.Writing.{Writing, HasRead, HasReadText};
ghost use Rattle.svr_command_check.specs.Answers.{CheckAnswers, CheckMayTell};
ghost use Rattle.svr_command_check.specs.Parts.{checked_line, checked_status, TellsChecked, Checks};

use std::alloc::{AllocError, Global};
use svr_check::{Checked, check_text, verdict_line};
use svr_edge::{ReadEnd, Sink, Source, read_text};
use svr_lrat_judge::LratVerdict;
use svr_lrat_text::MOST_TEXT;
use svr_refusal::Refusal;
use svr_status::{Status, finish, refuse, refused_as};

/// The line for what is said of a text.
fn line_of(alloc: Global, said: Checked) -> Result<Vec<u8>, AllocError>
    ensures { IfOk result (λ v. v.items ≡ checked_line said) }
{
    match said {
        Checked::Judged(verdict) => Ok(verdict_line(alloc, verdict)?.into_bytes()),
        Checked::Refused { number, place } => refused_as(alloc, place, number),
    }
}

/// The status with it.
fn status_of(said: Checked) -> Status
    ensures { result ≡ checked_status said }
{
    match said {
        Checked::Judged(LratVerdict::Accepted) => Status::AllOne,
        Checked::Judged(LratVerdict::Rejected { .. }) => Status::SomeZero,
        Checked::Refused { .. } => Status::Refused,
    }
}

fn tell<K: Sink>(alloc: Global, said: Checked, out: &mut K) -> Status
    ensures told { TellsChecked said result (K.written out.old) (K.faults out.old) (K.written out.new) (K.faults out.new) }
    ensures faults { K.faults out.old ≤ K.faults out.new }
{
    match line_of(alloc, said) {
        Ok(line) => finish(out, &line, status_of(said)),
        Err(AllocError) => Status::NoMemory,
    }
}

/// The check of a text of at most 67,108,864 bytes.
fn answer<K: Sink>(alloc: Global, text: &[u8], out: &mut K) -> Status
    requires { length text.now ≤ MOST_TEXT }
    ensures checks { Checks text.now result (K.written out.old) (K.faults out.old) (K.written out.new) (K.faults out.new) }
    ensures faults { K.faults out.old ≤ K.faults out.new }
{
    match check_text(alloc, text) {
        Ok(said) => tell(alloc, said, out),
        Err(AllocError) => Status::NoMemory,
    }
}

/// The check of the text that a source has. Nothing goes to the journal, whatever it tells.
pub fn check_source<S: Source, K: Sink>(alloc: Global, src: &mut S, out: &mut K) -> Status
    ensures writing { (journal : Option (List ℕ)) (n : ℕ) → IfSome (S.left src.old) (λ text.
        Writing (CheckAnswers text) (CheckMayTell text) result
        (sinks (K.written out.old) (K.faults out.old) journal n) (sinks (K.written out.new) (K.faults out.new) journal n)) }
    ensures extent { IfSome (S.left src.old) (λ text. HasReadText MOST_TEXT text result (S.left src.old) (S.left src.new)) }
    ensures command { result ≡ Status.Usage → ⊥ }
    ensures read { HasRead MOST_TEXT result (S.left src.old) (S.left src.new) }
    ensures read_fault { result ≡ Status.ReadFault → Rose (S.faults src.old) (S.faults src.new) }
    ensures write_fault { result ≡ Status.WriteFault → Rose (K.faults out.old) (K.faults out.new) }
    ensures source_faults { S.faults src.old ≤ S.faults src.new }
    ensures out_faults { K.faults out.old ≤ K.faults out.new }
{
    match read_text(alloc, src, MOST_TEXT) {
        Ok(text) => answer(alloc, &text, out),
        Err(ReadEnd::TooLong) => refuse(alloc, out, Refusal::TooLong),
        Err(ReadEnd::Failed) => Status::ReadFault,
        Err(ReadEnd::NoMemory) => Status::NoMemory,
    }
}
