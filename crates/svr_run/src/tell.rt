// What a call tells, as it is written.

ghost use Rattle.std.specs.Prelude.{◌≡◌, ◌≤◌, ◌⊎◌, ◌++◌, ℕ, ◌∷◌, cond, [], IfErr, OnOk, OnErr};
ghost use Rattle.std.specs.Io.KnownBytes.{Appends};
ghost use Rattle.svr_edge.specs.Causes.{HasCause};
ghost use Rattle.svr_edge.specs.Known.{AppendsFront};
ghost use Rattle.svr_frame.specs.Frame.{frame_term};
ghost use Rattle.svr_stream.specs.Puts.{Puts, place};
ghost use Rattle.svr_script.specs.ProofText as proof;
ghost use Rattle.svr_script.specs.Derived.{derivations_of};
ghost use Rattle.svr_script.specs.Run as spec;
ghost use Rattle.svr_derived.specs.Fronts.{PutsFront};
ghost use Rattle.svr_derived.specs.Shown.{AreShown};
ghost use Rattle.svr_run.specs.Telling.{Tells, TellsFront, printing_of, sinks};
ghost use Rattle.svr_run.specs.Events.{IsCause, IsCauseAt, contradiction_log, contradiction_text, event_of};

use crate::conflict::Contradiction;
use crate::extra::Extra;
use crate::stop::Stop;
use sqlite_items::Items;
use std::alloc::Global;
use svr_call::Outcome;
use svr_chain::NoMemory;
use svr_derived::put_derivations;
use svr_edge::{Failed, Sink};
use svr_frame::Frame;
use svr_phase::Options;
use svr_printed::{put_certificates, put_conflict, put_conflict_log, put_line, put_logs};
use svr_stream::Pending;

/// What a call tells: its number, the name of its object variable, its frame, what it answered, the object's numbers after it, and which items contradict each other, where that was asked.
#[derive(Clone, Copy)]
pub(crate) struct Told<'a> {
    pub(crate) number: u64,
    pub(crate) object: &'a [u8],
    pub(crate) frame: &'a Frame,
    pub(crate) outcome: &'a Outcome,
    pub(crate) after: &'a [Items<u64>],
    pub(crate) conflict: &'a Option<Contradiction>,
}

/// Puts the proofs of an answer as they were found, where they are printed.
fn put_found<K: Sink>(text: &mut Pending, out: &mut K, opts: Options, told: &Told<'_>)
    ensures { Puts (place (K.written out.old) (K.faults out.old) text.old) (place (K.written out.new) (K.faults out.new) text.new)
        (cond opts.proofs (proof.certificates_of (frame_term told.now.frame.now) told.now.outcome.now) []) }
{
    if opts.proofs {
        put_certificates(text, out, told.frame, told.outcome)
    }
}

/// Puts the log of a question that was given up where proofs are printed.
fn put_given_up<K: Sink>(text: &mut Pending, out: &mut K, opts: Options, told: &Told<'_>)
    ensures { Puts (place (K.written out.old) (K.faults out.old) text.old) (place (K.written out.new) (K.faults out.new) text.new)
        (cond opts.proofs (proof.logs_of (frame_term told.now.frame.now) told.now.outcome.now) []) }
{
    if opts.proofs {
        put_logs(text, out, told.frame, told.outcome)
    }
}

/// Puts the proofs of an answer as hinted derivations.
fn put_derived<K: Sink>(
    alloc: Global,
    text: &mut Pending,
    out: &mut K,
    opts: Options,
    told: &Told<'_>,
) -> Result<(), NoMemory>
    requires shown { AreShown told.now.outcome.now }
    ensures whole { OnOk result (Puts (place (K.written out.old) (K.faults out.old) text.old) (place (K.written out.new) (K.faults out.new) text.new)
        (derivations_of (frame_term told.now.frame.now) told.now.outcome.now ++ cond opts.proofs (proof.logs_of (frame_term told.now.frame.now) told.now.outcome.now) [])) }
    ensures front { OnErr result (PutsFront (place (K.written out.old) (K.faults out.old) text.old) (place (K.written out.new) (K.faults out.new) text.new)
        (derivations_of (frame_term told.now.frame.now) told.now.outcome.now ++ cond opts.proofs (proof.logs_of (frame_term told.now.frame.now) told.now.outcome.now) [])) }
{
    put_derivations(alloc, text, out, told.frame, told.outcome)?;
    put_given_up(text, out, opts, told);
    Ok(())
}

/// Puts the proofs of an answer in the form that is asked for.
fn put_proofs<K: Sink>(
    alloc: Global,
    text: &mut Pending,
    out: &mut K,
    opts: Options,
    extra: Extra,
    told: &Told<'_>,
) -> Result<(), NoMemory>
    requires shown { AreShown told.now.outcome.now }
    ensures whole { OnOk result (Puts (place (K.written out.old) (K.faults out.old) text.old) (place (K.written out.new) (K.faults out.new) text.new)
        (spec.proofs_of (printing_of opts extra) (frame_term told.now.frame.now) told.now.outcome.now)) }
    ensures front { OnErr result (PutsFront (place (K.written out.old) (K.faults out.old) text.old) (place (K.written out.new) (K.faults out.new) text.new)
        (spec.proofs_of (printing_of opts extra) (frame_term told.now.frame.now) told.now.outcome.now)) }
{
    if extra.lrat {
        put_derived(alloc, text, out, opts, told)
    } else {
        put_found(text, out, opts, told);
        Ok(())
    }
}

/// Puts the items that contradict each other, where they were asked for.
fn put_contradiction<K: Sink>(text: &mut Pending, out: &mut K, opts: Options, told: &Told<'_>)
    ensures { Puts (place (K.written out.old) (K.faults out.old) text.old) (place (K.written out.new) (K.faults out.new) text.new)
        (contradiction_text opts.proofs (frame_term told.now.frame.now) told.now.conflict.now) }
{
    match told.conflict {
        None => {}
        Some(found) => put_conflict(
            text,
            out,
            opts.proofs,
            told.frame,
            found.names.as_slice(),
            &found.end,
        ),
    }
}

/// Puts what is printed of a call: its line, the proofs of its answer, and the items that contradict each other.
fn put_event<K: Sink>(
    alloc: Global,
    text: &mut Pending,
    out: &mut K,
    opts: Options,
    extra: Extra,
    told: &Told<'_>,
) -> Result<(), NoMemory>
    requires shown { AreShown told.now.outcome.now }
    ensures whole { OnOk result ((class : ℕ) → Puts (place (K.written out.old) (K.faults out.old) text.old) (place (K.written out.new) (K.faults out.new) text.new)
        (spec.event_text (printing_of opts extra) (event_of class told.now))) }
    ensures front { OnErr result ((class : ℕ) → PutsFront (place (K.written out.old) (K.faults out.old) text.old) (place (K.written out.new) (K.faults out.new) text.new)
        (spec.event_text (printing_of opts extra) (event_of class told.now))) }
{
    put_line(
        text,
        out,
        told.number,
        told.object,
        told.frame,
        told.outcome,
        told.after,
    );
    put_proofs(alloc, text, out, opts, extra, told)?;
    put_contradiction(text, out, opts, told);
    Ok(())
}

/// Writes what is printed of a call, or a front of it where the sink fails or there is no memory for a proof.
fn print<K: Sink>(
    alloc: Global,
    opts: Options,
    extra: Extra,
    told: &Told<'_>,
    out: &mut K,
) -> Result<(), Stop>
    requires shown { AreShown told.now.outcome.now }
    ensures whole { OnOk result ((class : ℕ) → Appends (K.written out.old) (K.written out.new) (spec.event_text (printing_of opts extra) (event_of class told.now))) }
    ensures front { OnErr result ((class : ℕ) → AppendsFront (K.written out.old) (K.written out.new) (spec.event_text (printing_of opts extra) (event_of class told.now))) }
    ensures kept { OnOk result (K.faults out.new ≡ K.faults out.old) }
    ensures later { OnErr result (K.faults out.old ≤ K.faults out.new) }
    ensures cause { IfErr result (λ why. IsCauseAt why (K.faults out.old) (K.faults out.new)) }
{
    let mut text = Pending::new();
    let put = put_event(alloc, &mut text, out, opts, extra, told);
    text.finish(out)?;
    put?;
    Ok(())
}

/// Puts the log of a question for items that contradict each other that was given up.
fn put_contradiction_log<J: Sink>(text: &mut Pending, journal: &mut J, told: &Told<'_>)
    ensures { Puts (place (J.written journal.old) (J.faults journal.old) text.old) (place (J.written journal.new) (J.faults journal.new) text.new)
        (contradiction_log (frame_term told.now.frame.now) told.now.conflict.now) }
{
    match told.conflict {
        None => {}
        Some(found) => put_conflict_log(text, journal, told.frame, &found.end),
    }
}

/// Writes the logs of what was given up, of a question of the call and of that for items that contradict each other, or a front of them where the journal fails.
fn note<J: Sink>(told: &Told<'_>, journal: &mut J) -> Result<(), Failed>
    ensures whole { (class : ℕ) → OnOk result (Appends (J.written journal.old) (J.written journal.new) (spec.event_log (event_of class told.now))) }
    ensures front { (class : ℕ) → OnErr result (AppendsFront (J.written journal.old) (J.written journal.new) (spec.event_log (event_of class told.now))) }
    ensures cause { HasCause (J.faults journal.old) (J.faults journal.new) result }
{
    let mut text = Pending::new();
    put_logs(&mut text, journal, told.frame, told.outcome);
    put_contradiction_log(&mut text, journal, told);
    text.finish(journal)
}

/// Writes what a call tells: its text to `out`, and the logs of what was given up to `journal`. No part of either stands in memory as a whole but for one hinted derivation.
pub(crate) fn tell<K: Sink, J: Sink>(
    alloc: Global,
    opts: Options,
    extra: Extra,
    told: &Told<'_>,
    out: &mut K,
    journal: &mut J,
) -> Result<(), Stop>
    requires shown { AreShown told.now.outcome.now }
    ensures whole { OnOk result ((class : ℕ) → Tells (printing_of opts extra) (event_of class told.now ∷ [])
        (sinks (K.written out.old) (K.faults out.old) (J.written journal.old) (J.faults journal.old))
        (sinks (K.written out.new) (K.faults out.new) (J.written journal.new) (J.faults journal.new))) }
    ensures front { OnErr result ((class : ℕ) → TellsFront (printing_of opts extra) (event_of class told.now ∷ [])
        (sinks (K.written out.old) (K.faults out.old) (J.written journal.old) (J.faults journal.old))
        (sinks (K.written out.new) (K.faults out.new) (J.written journal.new) (J.faults journal.new))) }
    ensures cause { IfErr result (λ why. IsCause why
        (sinks (K.written out.old) (K.faults out.old) (J.written journal.old) (J.faults journal.old))
        (sinks (K.written out.new) (K.faults out.new) (J.written journal.new) (J.faults journal.new))) }
{
    print(alloc, opts, extra, told, out)?;
    note(told, journal)?;
    Ok(())
}
