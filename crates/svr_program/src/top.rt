// The top call.
ghost use Rattle.std.specs.Prelude.{◌≡◌, ◌≤◌, ◌⊎◌, ℕ, map, IfSome, string_bytes};
ghost use Rattle.std.specs.Io.KnownBytes.{Keeps};
ghost use Rattle.svr_edge.specs.Causes.{Rose};
ghost use Rattle.svr_words.specs.Words.{AskNothing};
ghost use Rattle.svr_status.specs.Writing.{HasRead, HasReadText, EndsUnread};
ghost use Rattle.svr_program.specs.Outcome.{Writes, Reads};

use std::alloc::{AllocError, Global};
use svr_answer::{load, run_source};
use svr_command_check::check_source;
use svr_command_cover::cover_source;
use svr_command_seq::seq_source;
use svr_edge::{Sink, Source};
use svr_status::{Status, finish};
use svr_words::{Request, USAGE, command};

/// All that the program does.
///
/// `words` are the words behind the program's name. The script, with the cover groups before it where coverage is asked for, the derivation to be checked, or the `randsequence` is read from `src`; that of a load is made; all printed text goes to `out`, and the log of each question that was given up to `journal`. What a call tells is written before the next one is asked. The status is the one that the process is to end with.
pub fn run<S: Source, K: Sink, J: Sink>(
    alloc: Global,
    words: &[String],
    src: &mut S,
    out: &mut K,
    journal: &mut J,
) -> Status
    // Over a source that tells its text, what is written is what the words and the text say. A run gives up a question only where 2^(n+1) is greater than the budget, n being the bits of the encoding whose log the journal has.
    ensures headline { IfSome (S.left src.old) (λ text.
        Writes (map (λ w. string_bytes w) words.now) text result
        (record { out = K.written out.old; journal = J.written journal.old; out_faults = K.faults out.old; journal_faults = J.faults journal.old })
        (record { out = K.written out.new; journal = J.written journal.new; out_faults = K.faults out.new; journal_faults = J.faults journal.new })) }

    // The part of the text that was read goes with the refusal: one byte past the limit where the text is too long, else all.
    ensures extent { (limit : ℕ) → Reads (map (λ w. string_bytes w) words.now) limit → IfSome (S.left src.old) (λ text. HasReadText limit text result (S.left src.old) (S.left src.new)) }
    // Over any source: what the words alone decide, how far the text was read, and each fault's cause.
    ensures usage { result ≡ Status.Usage → AskNothing (map (λ w. string_bytes w) words.now) }
    ensures no_command { AskNothing (map (λ w. string_bytes w) words.now) → EndsUnread result }
    ensures read { (limit : ℕ) → Reads (map (λ w. string_bytes w) words.now) limit → HasRead limit result (S.left src.old) (S.left src.new) }
    ensures unread { ((limit : ℕ) → Reads (map (λ w. string_bytes w) words.now) limit → ⊥) → Keeps (S.left src.old) (S.left src.new) }
    ensures read_fault { result ≡ Status.ReadFault → Rose (S.faults src.old) (S.faults src.new) }
    ensures write_fault { result ≡ Status.WriteFault → Rose (K.faults out.old) (K.faults out.new) ⊎ Rose (J.faults journal.old) (J.faults journal.new) }
    ensures source_faults { S.faults src.old ≤ S.faults src.new }
    ensures out_faults { K.faults out.old ≤ K.faults out.new }
    ensures journal_faults { J.faults journal.old ≤ J.faults journal.new }
{
    let request = match command(alloc, words) {
        Ok(Some(request)) => request,
        Ok(None) => return finish(out, USAGE, Status::Usage),
        Err(AllocError) => return Status::NoMemory,
    };
    match request {
        Request::Run(asked) => run_source(alloc, asked, src, out, journal),
        Request::Load(asked) => load(alloc, asked, out, journal),
        Request::Check => check_source(alloc, src, out),
        Request::Seq(lines) => seq_source(alloc, lines.seed, lines.count, src, out),
        Request::Cover(opts) => cover_source(alloc, opts, src, out, journal),
    }
}
