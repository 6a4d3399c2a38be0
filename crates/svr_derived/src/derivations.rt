// The proofs of an answer as hinted derivations, one after the other.

ghost use Rattle.std.specs.Prelude.{◌++◌, flat_map, OnOk, OnErr};
ghost use Rattle.std.specs.List.{All};
ghost use Rattle.svr_frame.specs.Frame.{frame_term};
ghost use Rattle.svr_phase.specs.declared.proof.Renewed.{Renewed};
ghost use Rattle.svr_call.specs.declared.outcome.Dropped.{Dropped};
ghost use Rattle.svr_stream.specs.Puts.{Puts, place};
ghost use Rattle.svr_script.specs.Derived as spec;
ghost use Rattle.svr_derived.specs.Fronts.{PutsFront};
ghost use Rattle.svr_derived.specs.Shown.{IsShown, AreShown};

use crate::derivation::put_derivation;
use std::alloc::Global;
use svr_call::{Dropped, Outcome};
use svr_chain::NoMemory;
use svr_edge::Sink;
use svr_encoded::Encoded;
use svr_frame::Frame;
use svr_phase::{Proof, Renewed};
use svr_stream::Pending;

/// Proofs in their order.
fn put_each<K: Sink>(
    alloc: Global,
    text: &mut Pending,
    out: &mut K,
    frame: &Frame,
    encodings: &[Encoded],
    proofs: &[Proof],
) -> Result<(), NoMemory>
    requires { All (IsShown encodings.now) proofs.now }
    ensures whole { OnOk result (Puts (place (K.written out.old) (K.faults out.old) text.old) (place (K.written out.new) (K.faults out.new) text.new)
        (spec.all_derived (frame_term frame.now) encodings.now proofs.now)) }
    ensures front { OnErr result (PutsFront (place (K.written out.old) (K.faults out.old) text.old) (place (K.written out.new) (K.faults out.new) text.new)
        (spec.all_derived (frame_term frame.now) encodings.now proofs.now)) }
{
    for proof in proofs {
        put_derivation(alloc, text, out, frame, encodings, proof)?;
    }
    Ok(())
}

/// The proofs of a new cycle.
fn put_renewed<K: Sink>(
    alloc: Global,
    text: &mut Pending,
    out: &mut K,
    frame: &Frame,
    encodings: &[Encoded],
    renewed: &Renewed,
) -> Result<(), NoMemory>
    requires { All (IsShown encodings.now) renewed.now.proofs }
    ensures whole { OnOk result (Puts (place (K.written out.old) (K.faults out.old) text.old) (place (K.written out.new) (K.faults out.new) text.new)
        (spec.all_derived (frame_term frame.now) encodings.now renewed.now.proofs)) }
    ensures front { OnErr result (PutsFront (place (K.written out.old) (K.faults out.old) text.old) (place (K.written out.new) (K.faults out.new) text.new)
        (spec.all_derived (frame_term frame.now) encodings.now renewed.now.proofs)) }
{
    let proofs = renewed.proofs.as_slice();
    put_each(alloc, text, out, frame, encodings, proofs)
}

/// The proofs of all new cycles.
fn put_cycles<K: Sink>(
    alloc: Global,
    text: &mut Pending,
    out: &mut K,
    frame: &Frame,
    encodings: &[Encoded],
    cycles: &[Renewed],
) -> Result<(), NoMemory>
    requires { All (λ (r : Renewed). All (IsShown encodings.now) r.proofs) cycles.now }
    ensures whole { OnOk result (Puts (place (K.written out.old) (K.faults out.old) text.old) (place (K.written out.new) (K.faults out.new) text.new)
        (flat_map (λ (r : Renewed). spec.all_derived (frame_term frame.now) encodings.now r.proofs) cycles.now)) }
    ensures front { OnErr result (PutsFront (place (K.written out.old) (K.faults out.old) text.old) (place (K.written out.new) (K.faults out.new) text.new)
        (flat_map (λ (r : Renewed). spec.all_derived (frame_term frame.now) encodings.now r.proofs) cycles.now)) }
{
    for renewed in cycles {
        put_renewed(alloc, text, out, frame, encodings, renewed)?;
    }
    Ok(())
}

/// The proofs of all dropped items.
fn put_dropped<K: Sink>(
    alloc: Global,
    text: &mut Pending,
    out: &mut K,
    frame: &Frame,
    encodings: &[Encoded],
    dropped: &[Dropped],
) -> Result<(), NoMemory>
    requires { All (λ (d : Dropped). IsShown encodings.now d.proof) dropped.now }
    ensures whole { OnOk result (Puts (place (K.written out.old) (K.faults out.old) text.old) (place (K.written out.new) (K.faults out.new) text.new)
        (flat_map (λ (d : Dropped). spec.derived_text (frame_term frame.now) encodings.now d.proof) dropped.now)) }
    ensures front { OnErr result (PutsFront (place (K.written out.old) (K.faults out.old) text.old) (place (K.written out.new) (K.faults out.new) text.new)
        (flat_map (λ (d : Dropped). spec.derived_text (frame_term frame.now) encodings.now d.proof) dropped.now)) }
{
    for one in dropped {
        put_derivation(alloc, text, out, frame, encodings, &one.proof)?;
    }
    Ok(())
}

/// The proofs of an answer 1.
fn put_of_one<K: Sink>(
    alloc: Global,
    text: &mut Pending,
    out: &mut K,
    frame: &Frame,
    encodings: &[Encoded],
    cycles: &[Renewed],
    dropped: &[Dropped],
) -> Result<(), NoMemory>
    requires cycles { All (λ (r : Renewed). All (IsShown encodings.now) r.proofs) cycles.now }
    requires dropped { All (λ (d : Dropped). IsShown encodings.now d.proof) dropped.now }
    ensures whole { OnOk result (Puts (place (K.written out.old) (K.faults out.old) text.old) (place (K.written out.new) (K.faults out.new) text.new)
        (flat_map (λ (r : Renewed). spec.all_derived (frame_term frame.now) encodings.now r.proofs) cycles.now ++ flat_map (λ (d : Dropped). spec.derived_text (frame_term frame.now) encodings.now d.proof) dropped.now)) }
    ensures front { OnErr result (PutsFront (place (K.written out.old) (K.faults out.old) text.old) (place (K.written out.new) (K.faults out.new) text.new)
        (flat_map (λ (r : Renewed). spec.all_derived (frame_term frame.now) encodings.now r.proofs) cycles.now ++ flat_map (λ (d : Dropped). spec.derived_text (frame_term frame.now) encodings.now d.proof) dropped.now)) }
{
    put_cycles(alloc, text, out, frame, encodings, cycles)?;
    put_dropped(alloc, text, out, frame, encodings, dropped)
}

/// Puts the proofs of an answer as hinted derivations, in their order: of new cycles, of a 0 or of the cap, of dropped items. One derivation at a time stands in memory.
///
/// Where there is no memory for one, a front of all of it has gone.
pub fn put_derivations<K: Sink>(
    alloc: Global,
    text: &mut Pending,
    out: &mut K,
    frame: &Frame,
    outcome: &Outcome,
) -> Result<(), NoMemory>
    requires { AreShown outcome.now }
    ensures whole { OnOk result (Puts (place (K.written out.old) (K.faults out.old) text.old) (place (K.written out.new) (K.faults out.new) text.new)
        (spec.derivations_of (frame_term frame.now) outcome.now)) }
    ensures front { OnErr result (PutsFront (place (K.written out.old) (K.faults out.old) text.old) (place (K.written out.new) (K.faults out.new) text.new)
        (spec.derivations_of (frame_term frame.now) outcome.now)) }
{
    match outcome {
        Outcome::One {
            dropped,
            cycles,
            encodings,
            ..
        } => put_of_one(
            alloc,
            text,
            out,
            frame,
            encodings.as_slice(),
            cycles.as_slice(),
            dropped.as_slice(),
        ),
        Outcome::Zero {
            proofs,
            encodings,
            ..
        } => put_each(
            alloc,
            text,
            out,
            frame,
            encodings.as_slice(),
            proofs.as_slice(),
        ),
        Outcome::GaveUp { .. } => Ok(()),
        Outcome::TooHeavy { .. } => Ok(()),
        Outcome::SizeCap {
            proofs,
            encodings,
            ..
        } => put_each(
            alloc,
            text,
            out,
            frame,
            encodings.as_slice(),
            proofs.as_slice(),
        ),
    }
}
