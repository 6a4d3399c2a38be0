// One proof as a hinted derivation.

ghost use Rattle.std.specs.Prelude.{◌≡◌, ◌∷◌, [], Some, codes, unwrap_or, IfOk, OnOk, OnErr};
ghost use Rattle.std.specs.List.{concat};
ghost use Rattle.svr_frame.specs.Frame.{frame_term};
ghost use Rattle.svr_lrat_made.specs.Made.{file_of};
ghost use Rattle.svr_lrat_printed.specs.Text.{text_of};
ghost use Rattle.svr_stream.specs.Puts.{Puts, place};
ghost use Rattle.svr_script.specs.ProofText.{reason_text, unknowns_text};
ghost use Rattle.svr_script.specs.Derived as spec;
ghost use Rattle.svr_derived.specs.Fronts.{PutsFront};
ghost use Rattle.svr_derived.specs.Shown.{IsShown, IsShownOver};

use std::alloc::Global;
use svr_chain::NoMemory;
use svr_edge::Sink;
use svr_encoded::Encoded;
use svr_frame::Frame;
use svr_lrat::to_lrat;
use svr_phase::{Proof, ProofReason};
use svr_printed::{put_reason, put_unknowns};
use svr_stream::Pending;

/// A derivation between the first lines of its proof, which say what is refuted and name the bits, and the last one.
fn put_between<K: Sink>(
    text: &mut Pending,
    out: &mut K,
    frame: &Frame,
    reason: ProofReason,
    encoding: &Encoded,
    derivation: &[u8],
)
    ensures { Puts (place (K.written out.old) (K.faults out.old) text.old) (place (K.written out.new) (K.faults out.new) text.new)
        (concat (codes "p " ∷ reason_text (frame_term frame.now) reason ∷ codes "\n" ∷ unknowns_text (frame_term frame.now) encoding.now ∷ derivation.now ∷ codes "e\n" ∷ [])) }
{
    text.put(out, b"p ");
    put_reason(text, out, frame, reason);
    text.put(out, b"\n");
    put_unknowns(text, out, frame, encoding);
    text.put(out, derivation);
    text.put(out, b"e\n");
}

/// The derivation of a proof over its encoding. What the proof assumes is written out for it.
fn derivation_of(alloc: Global, encoding: &Encoded, proof: &Proof) -> Result<Vec<u8>, NoMemory>
    requires { IsShownOver (Some encoding.now) proof.now }
    ensures { IfOk result (λ t. t.items ≡ text_of (file_of encoding.now.cnf.vars encoding.now.cnf.clauses.items proof.now.assume proof.now.refutation.steps (unwrap_or proof.now.refutation.goal 0))) }
{
    let written = proof.assume.written(alloc)?;
    let assume = written.as_slice();
    to_lrat(alloc, &encoding.cnf, assume, &proof.refutation)
}

/// A proof over its encoding. Its derivation is made before anything of it is put.
fn put_derivation_over<K: Sink>(
    alloc: Global,
    text: &mut Pending,
    out: &mut K,
    frame: &Frame,
    encoding: &Encoded,
    proof: &Proof,
) -> Result<(), NoMemory>
    requires { IsShownOver (Some encoding.now) proof.now }
    ensures whole { OnOk result (Puts (place (K.written out.old) (K.faults out.old) text.old) (place (K.written out.new) (K.faults out.new) text.new)
        (spec.derived_over (frame_term frame.now) (Some encoding.now) proof.now)) }
    ensures front { OnErr result (PutsFront (place (K.written out.old) (K.faults out.old) text.old) (place (K.written out.new) (K.faults out.new) text.new)
        (spec.derived_over (frame_term frame.now) (Some encoding.now) proof.now)) }
{
    let derivation = derivation_of(alloc, encoding, proof)?;
    let lines = derivation.as_slice();
    put_between(text, out, frame, proof.reason, encoding, lines);
    Ok(())
}

/// A proof over the encoding that it names.
pub(crate) fn put_derivation<K: Sink>(
    alloc: Global,
    text: &mut Pending,
    out: &mut K,
    frame: &Frame,
    encodings: &[Encoded],
    proof: &Proof,
) -> Result<(), NoMemory>
    requires { IsShown encodings.now proof.now }
    ensures whole { OnOk result (Puts (place (K.written out.old) (K.faults out.old) text.old) (place (K.written out.new) (K.faults out.new) text.new)
        (spec.derived_text (frame_term frame.now) encodings.now proof.now)) }
    ensures front { OnErr result (PutsFront (place (K.written out.old) (K.faults out.old) text.old) (place (K.written out.new) (K.faults out.new) text.new)
        (spec.derived_text (frame_term frame.now) encodings.now proof.now)) }
{
    match encodings.get(proof.encoding as usize) {
        Some(encoding) => put_derivation_over(alloc, text, out, frame, encoding, proof),
        None => Ok(()),
    }
}
