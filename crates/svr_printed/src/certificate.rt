// The proofs that an answer carries, and the log of a question that was given up.

ghost use Rattle.std.specs.Prelude.{◌≡◌, ◌++◌, flat_map};
ghost use Rattle.svr_frame.specs.Frame.{frame_term};
ghost use Rattle.svr_phase.specs.declared.proof.Renewed.{Renewed};
ghost use Rattle.svr_call.specs.declared.outcome.Dropped.{Dropped};
ghost use Rattle.svr_stream.specs.Puts.{Puts, place};
ghost use Rattle.svr_script.specs.ProofText as spec;

use crate::proof::{put_log, put_proof, put_proofs};
use svr_call::{Dropped, Outcome};
use svr_edge::Sink;
use svr_encoded::Encoded;
use svr_frame::Frame;
use svr_phase::Renewed;
use svr_stream::Pending;

/// The proofs of a new cycle.
fn put_renewed<K: Sink>(
    text: &mut Pending,
    out: &mut K,
    frame: &Frame,
    encodings: &[Encoded],
    renewed: &Renewed,
)
    ensures { Puts (place (K.written out.old) (K.faults out.old) text.old) (place (K.written out.new) (K.faults out.new) text.new)
        (spec.proofs_text (frame_term frame.now) encodings.now renewed.now.proofs) }
{
    put_proofs(text, out, frame, encodings, renewed.proofs.as_slice());
}

fn put_cycle_proofs<K: Sink>(
    text: &mut Pending,
    out: &mut K,
    frame: &Frame,
    encodings: &[Encoded],
    cycles: &[Renewed],
)
    ensures { Puts (place (K.written out.old) (K.faults out.old) text.old) (place (K.written out.new) (K.faults out.new) text.new)
        (flat_map (λ (r : Renewed). spec.proofs_text (frame_term frame.now) encodings.now r.proofs) cycles.now) }
{
    for renewed in cycles {
        put_renewed(text, out, frame, encodings, renewed);
    }
}

fn put_drop_proofs<K: Sink>(
    text: &mut Pending,
    out: &mut K,
    frame: &Frame,
    encodings: &[Encoded],
    dropped: &[Dropped],
)
    ensures { Puts (place (K.written out.old) (K.faults out.old) text.old) (place (K.written out.new) (K.faults out.new) text.new)
        (flat_map (λ (d : Dropped). spec.proof_text (frame_term frame.now) encodings.now d.proof) dropped.now) }
{
    for one in dropped {
        put_proof(text, out, frame, encodings, &one.proof);
    }
}

/// The proofs of an answer 1.
fn put_proofs_of_one<K: Sink>(
    text: &mut Pending,
    out: &mut K,
    frame: &Frame,
    encodings: &[Encoded],
    cycles: &[Renewed],
    dropped: &[Dropped],
)
    ensures { Puts (place (K.written out.old) (K.faults out.old) text.old) (place (K.written out.new) (K.faults out.new) text.new)
        (flat_map (λ (r : Renewed). spec.proofs_text (frame_term frame.now) encodings.now r.proofs) cycles.now ++ flat_map (λ (d : Dropped). spec.proof_text (frame_term frame.now) encodings.now d.proof) dropped.now) }
{
    put_cycle_proofs(text, out, frame, encodings, cycles);
    put_drop_proofs(text, out, frame, encodings, dropped);
}

/// Puts the proofs of an answer: of new cycles, of a 0 or of the cap, of dropped items; and the log of a question that was given up.
pub fn put_certificates<K: Sink>(text: &mut Pending, out: &mut K, frame: &Frame, outcome: &Outcome)
    ensures { Puts (place (K.written out.old) (K.faults out.old) text.old) (place (K.written out.new) (K.faults out.new) text.new)
        (spec.certificates_of (frame_term frame.now) outcome.now) }
{
    match outcome {
        Outcome::One {
            dropped,
            cycles,
            encodings,
            ..
        } => put_proofs_of_one(
            text,
            out,
            frame,
            encodings.as_slice(),
            cycles.as_slice(),
            dropped.as_slice(),
        ),
        Outcome::Zero {
            proofs,
            encodings,
            ..
        } => put_proofs(text, out, frame, encodings.as_slice(), proofs.as_slice()),
        Outcome::GaveUp { .. } => put_logs(text, out, frame, outcome),
        Outcome::TooHeavy { .. } => {}
        Outcome::SizeCap {
            proofs,
            encodings,
            ..
        } => put_proofs(text, out, frame, encodings.as_slice(), proofs.as_slice()),
    }
}

/// Puts the log of a question that was given up alone.
pub fn put_logs<K: Sink>(text: &mut Pending, out: &mut K, frame: &Frame, outcome: &Outcome)
    ensures { Puts (place (K.written out.old) (K.faults out.old) text.old) (place (K.written out.new) (K.faults out.new) text.new)
        (spec.logs_of (frame_term frame.now) outcome.now) }
{
    match outcome {
        Outcome::GaveUp {
            query,
            encoding,
            log,
            first,
        } => put_log(text, out, frame, *query, encoding, log, *first),
        Outcome::One { .. } => {}
        Outcome::Zero { .. } => {}
        Outcome::TooHeavy { .. } => {}
        Outcome::SizeCap { .. } => {}
    }
}
