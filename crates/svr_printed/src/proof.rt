// Proofs, and logs of questions that were given up.

ghost use Rattle.std.specs.Prelude.{◌≡◌, ◌++◌, ◌∷◌, [], Some, codes, decimal, flat_map};
ghost use Rattle.std.specs.List.{concat};
ghost use Rattle.svr_chain.specs.declared.clause.Lit.{Lit};
ghost use Rattle.svr_vector.specs.Places.{rows};
ghost use Rattle.svr_frame.specs.Frame.{frame_term};
ghost use Rattle.svr_stream.specs.Puts.{Puts, place};
ghost use Rattle.svr_script.specs.Printed as line;
ghost use Rattle.svr_script.specs.ProofText as spec;
ghost use Rattle.svr_printed.specs.Parts.{kind_of};

use crate::line::put_query;
use crate::names::put_name;
use crate::numbers::put_value;
use svr_call::Query;
use svr_chain::{Clause, Link, Lit, Refutation, Step};
use svr_edge::Sink;
use svr_encoded::Encoded;
use svr_frame::{Frame, Slot};
use svr_phase::{Proof, ProofReason};
use svr_stream::Pending;
use svr_typed::NumType;

/// The negation of a variable.
fn put_negated<K: Sink>(text: &mut Pending, out: &mut K, var: u64)
    ensures { Puts (place (K.written out.old) (K.faults out.old) text.old) (place (K.written out.new) (K.faults out.new) text.new)
        (codes "-" ++ decimal var) }
{
    text.put(out, b"-");
    text.put_number(out, var);
}

/// A literal by its variable, with `-` where it is negated.
fn put_lit<K: Sink>(text: &mut Pending, out: &mut K, lit: Lit)
    ensures { Puts (place (K.written out.old) (K.faults out.old) text.old) (place (K.written out.new) (K.faults out.new) text.new)
        (spec.lit_text lit) }
{
    if lit.neg {
        put_negated(text, out, lit.var)
    } else {
        text.put_number(out, lit.var)
    }
}

/// A literal with a space before it.
fn put_spaced<K: Sink>(text: &mut Pending, out: &mut K, lit: Lit)
    ensures { Puts (place (K.written out.old) (K.faults out.old) text.old) (place (K.written out.new) (K.faults out.new) text.new)
        (codes " " ++ spec.lit_text lit) }
{
    text.put(out, b" ");
    put_lit(text, out, lit);
}

/// Literals, each with a space before it.
fn put_lits<K: Sink>(text: &mut Pending, out: &mut K, lits: &[Lit])
    ensures { Puts (place (K.written out.old) (K.faults out.old) text.old) (place (K.written out.new) (K.faults out.new) text.new)
        (flat_map (λ (l : Lit). codes " " ++ spec.lit_text l) lits.now) }
{
    for lit in lits {
        put_spaced(text, out, *lit);
    }
}

/// A line of literals ends with 0.
fn put_lits_line<K: Sink>(text: &mut Pending, out: &mut K, begin: &[u8], lits: &[Lit])
    ensures { Puts (place (K.written out.old) (K.faults out.old) text.old) (place (K.written out.new) (K.faults out.new) text.new)
        (spec.lits_line begin.now lits.now) }
{
    text.put(out, begin);
    put_lits(text, out, lits);
    text.put(out, b" 0\n");
}

/// An element of an array.
fn put_element<K: Sink>(text: &mut Pending, out: &mut K, frame: &Frame, prop: u32, index: u32)
    ensures { Puts (place (K.written out.old) (K.faults out.old) text.old) (place (K.written out.new) (K.faults out.new) text.new)
        (concat (line.prop_name (frame_term frame.now) prop ∷ codes "[" ∷ decimal index ∷ codes "]" ∷ [])) }
{
    put_name(text, out, frame, prop);
    text.put(out, b"[");
    text.put_number(out, index);
    text.put(out, b"]");
}

/// The size of an array.
fn put_size<K: Sink>(text: &mut Pending, out: &mut K, frame: &Frame, prop: u32)
    ensures { Puts (place (K.written out.old) (K.faults out.old) text.old) (place (K.written out.new) (K.faults out.new) text.new)
        (line.prop_name (frame_term frame.now) prop ++ codes ".size") }
{
    put_name(text, out, frame, prop);
    text.put(out, b".size");
}

fn put_slot<K: Sink>(text: &mut Pending, out: &mut K, frame: &Frame, slot: Slot)
    ensures { Puts (place (K.written out.old) (K.faults out.old) text.old) (place (K.written out.new) (K.faults out.new) text.new)
        (spec.slot_text (frame_term frame.now) slot) }
{
    match slot {
        Slot::Scalar(prop) => put_name(text, out, frame, prop),
        Slot::Element(prop, index) => put_element(text, out, frame, prop, index),
        Slot::Size(prop) => put_size(text, out, frame, prop),
    }
}

/// The bits of an unknown.
fn put_slot_line<K: Sink>(text: &mut Pending, out: &mut K, frame: &Frame, slot: Slot, bits: &[Lit])
    ensures { Puts (place (K.written out.old) (K.faults out.old) text.old) (place (K.written out.new) (K.faults out.new) text.new)
        (spec.lits_line (codes "b " ++ spec.slot_text (frame_term frame.now) slot) bits.now) }
{
    text.put(out, b"b ");
    put_slot(text, out, frame, slot);
    put_lits(text, out, bits);
    text.put(out, b" 0\n");
}

fn put_unknown<K: Sink>(text: &mut Pending, out: &mut K, frame: &Frame, slot: Slot, row: &Vec<Lit>)
    ensures { Puts (place (K.written out.old) (K.faults out.old) text.old) (place (K.written out.new) (K.faults out.new) text.new)
        (spec.lits_line (codes "b " ++ spec.slot_text (frame_term frame.now) slot) row.now.items) }
{
    put_slot_line(text, out, frame, slot, row.as_slice());
}

/// The bits of each unknown.
fn put_bits<K: Sink>(
    text: &mut Pending,
    out: &mut K,
    frame: &Frame,
    slots: &[Slot],
    bits: &[Vec<Lit>],
)
    ensures { Puts (place (K.written out.old) (K.faults out.old) text.old) (place (K.written out.new) (K.faults out.new) text.new)
        (spec.bits_text (frame_term frame.now) slots.now (rows bits.now)) }
{
    let mut slots_left = slots;
    let mut bits_left = bits;
    while let [slot, other_slots @ ..] = slots_left {
        let [row, other_bits @ ..] = bits_left else {
            return;
        };
        put_unknown(text, out, frame, *slot, row);
        slots_left = other_slots;
        bits_left = other_bits;
    }
}

/// Puts the unknowns of an encoding and their bits.
pub fn put_unknowns<K: Sink>(text: &mut Pending, out: &mut K, frame: &Frame, encoding: &Encoded)
    ensures { Puts (place (K.written out.old) (K.faults out.old) text.old) (place (K.written out.new) (K.faults out.new) text.new)
        (spec.unknowns_text (frame_term frame.now) encoding.now) }
{
    put_bits(text, out, frame, &encoding.slots, &encoding.bits);
}

fn put_clause<K: Sink>(text: &mut Pending, out: &mut K, clause: &Clause)
    ensures { Puts (place (K.written out.old) (K.faults out.old) text.old) (place (K.written out.new) (K.faults out.new) text.new)
        (spec.lits_line (codes "c") clause.now) }
{
    put_lits_line(text, out, b"c", clause.lits());
}

fn put_clauses<K: Sink>(text: &mut Pending, out: &mut K, clauses: &[Clause])
    ensures { Puts (place (K.written out.old) (K.faults out.old) text.old) (place (K.written out.new) (K.faults out.new) text.new)
        (spec.clauses_text clauses.now) }
{
    for clause in clauses {
        put_clause(text, out, clause);
    }
}

fn put_link<K: Sink>(text: &mut Pending, out: &mut K, link: Link)
    ensures { Puts (place (K.written out.old) (K.faults out.old) text.old) (place (K.written out.new) (K.faults out.new) text.new)
        (spec.link_text link) }
{
    text.put(out, b" ");
    put_lit(text, out, link.pivot);
    text.put(out, b" ");
    text.put_number(out, link.clause);
}

fn put_links<K: Sink>(text: &mut Pending, out: &mut K, links: &[Link])
    ensures { Puts (place (K.written out.old) (K.faults out.old) text.old) (place (K.written out.new) (K.faults out.new) text.new)
        (flat_map spec.link_text links.now) }
{
    for link in links {
        put_link(text, out, *link);
    }
}

/// The line of a step that begins with this clause.
fn put_step_line<K: Sink>(text: &mut Pending, out: &mut K, start: u64, links: &[Link])
    ensures { Puts (place (K.written out.old) (K.faults out.old) text.old) (place (K.written out.new) (K.faults out.new) text.new)
        (concat (codes "s " ∷ decimal start ∷ flat_map spec.link_text links.now ∷ codes " 0\n" ∷ [])) }
{
    text.put(out, b"s ");
    text.put_number(out, start);
    put_links(text, out, links);
    text.put(out, b" 0\n");
}

fn put_step<K: Sink>(text: &mut Pending, out: &mut K, step: &Step)
    ensures { Puts (place (K.written out.old) (K.faults out.old) text.old) (place (K.written out.new) (K.faults out.new) text.new)
        (spec.step_text step.now) }
{
    put_step_line(text, out, step.start, step.links.as_slice());
}

fn put_steps<K: Sink>(text: &mut Pending, out: &mut K, steps: &[Step])
    ensures { Puts (place (K.written out.old) (K.faults out.old) text.old) (place (K.written out.new) (K.faults out.new) text.new)
        (spec.steps_text steps.now) }
{
    for step in steps {
        put_step(text, out, step);
    }
}

/// The line of a goal.
fn put_goal_line<K: Sink>(text: &mut Pending, out: &mut K, goal: u64)
    ensures { Puts (place (K.written out.old) (K.faults out.old) text.old) (place (K.written out.new) (K.faults out.new) text.new)
        (concat (codes "g " ∷ decimal goal ∷ codes "\n" ∷ [])) }
{
    text.put(out, b"g ");
    text.put_number(out, goal);
    text.put(out, b"\n");
}

fn put_goal<K: Sink>(text: &mut Pending, out: &mut K, goal: Option<u64>)
    ensures { Puts (place (K.written out.old) (K.faults out.old) text.old) (place (K.written out.new) (K.faults out.new) text.new)
        (spec.goal_text goal) }
{
    match goal {
        None => {}
        Some(goal) => put_goal_line(text, out, goal),
    }
}

/// The steps of a proof, its goal, and its last line.
fn put_end<K: Sink>(text: &mut Pending, out: &mut K, steps: &[Step], goal: Option<u64>)
    ensures { Puts (place (K.written out.old) (K.faults out.old) text.old) (place (K.written out.new) (K.faults out.new) text.new)
        (concat (spec.steps_text steps.now ∷ spec.goal_text goal ∷ codes "e\n" ∷ [])) }
{
    put_steps(text, out, steps);
    put_goal(text, out, goal);
    text.put(out, b"e\n");
}

fn put_refutation<K: Sink>(text: &mut Pending, out: &mut K, refutation: &Refutation)
    ensures { Puts (place (K.written out.old) (K.faults out.old) text.old) (place (K.written out.new) (K.faults out.new) text.new)
        (concat (spec.steps_text refutation.now.steps ∷ spec.goal_text refutation.now.goal ∷ codes "e\n" ∷ [])) }
{
    put_end(text, out, &refutation.steps, refutation.goal);
}

/// The steps of a log.
fn put_steps_of<K: Sink>(text: &mut Pending, out: &mut K, log: &Refutation)
    ensures { Puts (place (K.written out.old) (K.faults out.old) text.old) (place (K.written out.new) (K.faults out.new) text.new)
        (spec.steps_text log.now.steps) }
{
    put_steps(text, out, &log.steps);
}

/// The type of a property; one of no bits where there is none.
fn kind_of(frame: &Frame, prop: u32) -> NumType
    ensures { result ≡ kind_of (frame_term frame.now) prop }
{
    match frame.class.props.as_slice().get(prop as usize) {
        Some(declared) => declared.kind,
        None => NumType {
            width: 0,
            signed: false,
            members: None,
        },
    }
}

/// A value of a scalar property.
fn put_scalar<K: Sink>(text: &mut Pending, out: &mut K, frame: &Frame, prop: u32, value: u64)
    ensures { Puts (place (K.written out.old) (K.faults out.old) text.old) (place (K.written out.new) (K.faults out.new) text.new)
        (line.scalar_text (frame_term frame.now) prop value) }
{
    let kind = kind_of(frame, prop);
    put_value(text, out, frame.enums.as_slice(), kind, value);
}

/// A scalar property and a value of it.
fn put_choice<K: Sink>(
    text: &mut Pending,
    out: &mut K,
    begin: &[u8],
    frame: &Frame,
    prop: u32,
    value: u64,
)
    ensures { Puts (place (K.written out.old) (K.faults out.old) text.old) (place (K.written out.new) (K.faults out.new) text.new)
        (concat (begin.now ∷ line.prop_name (frame_term frame.now) prop ∷ codes "=" ∷ line.scalar_text (frame_term frame.now) prop value ∷ [])) }
{
    text.put(out, begin);
    put_name(text, out, frame, prop);
    text.put(out, b"=");
    put_scalar(text, out, frame, prop, value);
}

/// The rank of a soft item that is dropped.
fn put_rank<K: Sink>(text: &mut Pending, out: &mut K, rank: u32)
    ensures { Puts (place (K.written out.old) (K.faults out.old) text.old) (place (K.written out.new) (K.faults out.new) text.new)
        (codes "drop " ++ decimal rank) }
{
    text.put(out, b"drop ");
    text.put_number(out, rank);
}

/// Puts what a proof refutes.
pub fn put_reason<K: Sink>(text: &mut Pending, out: &mut K, frame: &Frame, reason: ProofReason)
    ensures { Puts (place (K.written out.old) (K.faults out.old) text.old) (place (K.written out.new) (K.faults out.new) text.new)
        (spec.reason_text (frame_term frame.now) reason) }
{
    match reason {
        ProofReason::Hard => text.put(out, b"hard"),
        ProofReason::Size => text.put(out, b"size"),
        ProofReason::Randc { prop, value } => put_choice(text, out, b"randc ", frame, prop, value),
        ProofReason::Cycle { prop, value } => put_choice(text, out, b"cycle ", frame, prop, value),
        ProofReason::Drop { rank } => put_rank(text, out, rank),
    }
}

/// The clauses of an encoding.
fn put_cnf<K: Sink>(text: &mut Pending, out: &mut K, encoding: &Encoded)
    ensures { Puts (place (K.written out.old) (K.faults out.old) text.old) (place (K.written out.new) (K.faults out.new) text.new)
        (spec.clauses_text encoding.now.cnf.clauses.items) }
{
    put_clauses(text, out, &encoding.cnf.clauses);
}

/// What a proof assumes.
fn put_assumed<K: Sink>(text: &mut Pending, out: &mut K, proof: &Proof)
    ensures { Puts (place (K.written out.old) (K.faults out.old) text.old) (place (K.written out.new) (K.faults out.new) text.new)
        (spec.lits_line (codes "a") proof.now.assume) }
{
    let pieces = proof.assume.pieces();
    text.put(out, b"a");
    put_lits(text, out, pieces.front);
    put_lits(text, out, pieces.middle);
    put_lits(text, out, pieces.back);
    text.put(out, b" 0\n");
}

/// A proof over its encoding.
fn put_proof_over<K: Sink>(
    text: &mut Pending,
    out: &mut K,
    frame: &Frame,
    encoding: &Encoded,
    proof: &Proof,
)
    ensures { Puts (place (K.written out.old) (K.faults out.old) text.old) (place (K.written out.new) (K.faults out.new) text.new)
        (spec.proof_over (frame_term frame.now) (Some encoding.now) proof.now) }
{
    text.put(out, b"p ");
    put_reason(text, out, frame, proof.reason);
    text.put(out, b"\n");
    put_unknowns(text, out, frame, encoding);
    put_assumed(text, out, proof);
    put_cnf(text, out, encoding);
    put_refutation(text, out, &proof.refutation);
}

/// A proof over the encoding that it names.
pub(crate) fn put_proof<K: Sink>(
    text: &mut Pending,
    out: &mut K,
    frame: &Frame,
    encodings: &[Encoded],
    proof: &Proof,
)
    ensures { Puts (place (K.written out.old) (K.faults out.old) text.old) (place (K.written out.new) (K.faults out.new) text.new)
        (spec.proof_text (frame_term frame.now) encodings.now proof.now) }
{
    match encodings.get(proof.encoding as usize) {
        Some(encoding) => put_proof_over(text, out, frame, encoding, proof),
        None => {}
    }
}

pub(crate) fn put_proofs<K: Sink>(
    text: &mut Pending,
    out: &mut K,
    frame: &Frame,
    encodings: &[Encoded],
    proofs: &[Proof],
)
    ensures { Puts (place (K.written out.old) (K.faults out.old) text.old) (place (K.written out.new) (K.faults out.new) text.new)
        (spec.proofs_text (frame_term frame.now) encodings.now proofs.now) }
{
    for proof in proofs {
        put_proof(text, out, frame, encodings, proof);
    }
}

/// A log of a question that was given up, behind the words that say what was asked.
fn put_log_behind<K: Sink>(
    text: &mut Pending,
    out: &mut K,
    frame: &Frame,
    encoding: &Encoded,
    log: &Refutation,
    first: u64,
)
    ensures { Puts (place (K.written out.old) (K.faults out.old) text.old) (place (K.written out.new) (K.faults out.new) text.new)
        (concat (codes "\n" ∷ spec.unknowns_text (frame_term frame.now) encoding.now ∷ spec.clauses_text encoding.now.cnf.clauses.items ∷ spec.steps_text log.now.steps ∷ codes "f " ∷ decimal first ∷ codes "\ne\n" ∷ [])) }
{
    text.put(out, b"\n");
    put_unknowns(text, out, frame, encoding);
    put_cnf(text, out, encoding);
    put_steps_of(text, out, log);
    text.put(out, b"f ");
    text.put_number(out, first);
    text.put(out, b"\ne\n");
}

/// The log of a question in these words that was given up.
pub(crate) fn put_log_over<K: Sink>(
    text: &mut Pending,
    out: &mut K,
    question: &[u8],
    frame: &Frame,
    encoding: &Encoded,
    log: &Refutation,
    first: u64,
)
    ensures { Puts (place (K.written out.old) (K.faults out.old) text.old) (place (K.written out.new) (K.faults out.new) text.new)
        (spec.log_over question.now (frame_term frame.now) encoding.now log.now first) }
{
    text.put(out, b"p gaveup ");
    text.put(out, question);
    put_log_behind(text, out, frame, encoding, log, first);
}

/// The log of a question of a call that was given up.
pub(crate) fn put_log<K: Sink>(
    text: &mut Pending,
    out: &mut K,
    frame: &Frame,
    query: Query,
    encoding: &Encoded,
    log: &Refutation,
    first: u64,
)
    ensures { Puts (place (K.written out.old) (K.faults out.old) text.old) (place (K.written out.new) (K.faults out.new) text.new)
        (spec.log_text (frame_term frame.now) query encoding.now log.now first) }
{
    text.put(out, b"p gaveup ");
    put_query(text, out, frame, query);
    put_log_behind(text, out, frame, encoding, log, first);
}
