// The line of a call.

ghost use Rattle.std.specs.Prelude.{◌≡◌, ◌++◌, ◌∷◌, [], ℕ, List, Option, codes, decimal, flat_map};
ghost use Rattle.std.specs.List.{concat};
ghost use Rattle.svr_frame.specs.Frame.{frame_term};
ghost use Rattle.svr_conflict.specs.declared.found.ConflictEnd.{ConflictEnd};
ghost use Rattle.svr_stream.specs.Puts.{Puts, place};
ghost use Rattle.svr_script.specs.Printed as spec;

use crate::names::{put_declared, put_name};
use crate::values::put_values;
use sqlite_items::Items;
use svr_call::{Dropped, Outcome, Query};
use svr_edge::Sink;
use svr_frame::{Frame, Part};
use svr_phase::Renewed;
use svr_stream::Pending;
use svr_typed::Prop;

/// A property with which a new cycle began.
fn put_cycle<K: Sink>(text: &mut Pending, out: &mut K, frame: &Frame, prop: u32)
    ensures { Puts (place (K.written out.old) (K.faults out.old) text.old) (place (K.written out.new) (K.faults out.new) text.new)
        (codes " cycle=" ++ spec.prop_name (frame_term frame.now) prop) }
{
    text.put(out, b" cycle=");
    put_name(text, out, frame, prop);
}

/// The properties with which new cycles began.
fn put_cycles<K: Sink>(text: &mut Pending, out: &mut K, frame: &Frame, cycles: &[Renewed])
    ensures { Puts (place (K.written out.old) (K.faults out.old) text.old) (place (K.written out.new) (K.faults out.new) text.new)
        (flat_map (spec.cycle_text (frame_term frame.now)) cycles.now) }
{
    for renewed in cycles {
        put_cycle(text, out, frame, renewed.prop);
    }
}

/// A soft item that was dropped.
fn put_dropped<K: Sink>(text: &mut Pending, out: &mut K, rank: u32)
    ensures { Puts (place (K.written out.old) (K.faults out.old) text.old) (place (K.written out.new) (K.faults out.new) text.new)
        (codes " dropped=" ++ decimal rank) }
{
    text.put(out, b" dropped=");
    text.put_number(out, rank);
}

/// The soft items that were dropped.
fn put_all_dropped<K: Sink>(text: &mut Pending, out: &mut K, dropped: &[Dropped])
    ensures { Puts (place (K.written out.old) (K.faults out.old) text.old) (place (K.written out.new) (K.faults out.new) text.new)
        (flat_map spec.dropped_text dropped.now) }
{
    for one in dropped {
        put_dropped(text, out, one.rank);
    }
}

/// The size of an array.
fn put_size<K: Sink>(text: &mut Pending, out: &mut K, prop: &Prop, size: u32)
    ensures { Puts (place (K.written out.old) (K.faults out.old) text.old) (place (K.written out.new) (K.faults out.new) text.new)
        (concat (codes " " ∷ prop.now.name ∷ codes ".size=" ∷ decimal size ∷ [])) }
{
    text.put(out, b" ");
    put_declared(text, out, prop);
    text.put(out, b".size=");
    text.put_number(out, size);
}

/// The size of a property where the call has chosen it.
fn put_free_size<K: Sink>(text: &mut Pending, out: &mut K, prop: &Prop, is_free: bool, size: u32)
    ensures { Puts (place (K.written out.old) (K.faults out.old) text.old) (place (K.written out.new) (K.faults out.new) text.new)
        (spec.sizes_text (prop.now ∷ []) (is_free ∷ []) (size ∷ [])) }
{
    if is_free {
        put_size(text, out, prop, size)
    }
}

/// The sizes that the call has chosen.
fn put_sizes<K: Sink>(text: &mut Pending, out: &mut K, props: &[Prop], free: &[bool], sizes: &[u32])
    ensures { Puts (place (K.written out.old) (K.faults out.old) text.old) (place (K.written out.new) (K.faults out.new) text.new)
        (spec.sizes_text props.now free.now sizes.now) }
{
    let mut props_left = props;
    let mut free_left = free;
    let mut sizes_left = sizes;
    while let [prop, other_props @ ..] = props_left {
        let [is_free, other_free @ ..] = free_left else {
            return;
        };
        let [size, other_sizes @ ..] = sizes_left else {
            return;
        };
        put_free_size(text, out, prop, *is_free, *size);
        props_left = other_props;
        free_left = other_free;
        sizes_left = other_sizes;
    }
}

/// The sizes that the call has chosen in a frame.
fn put_chosen<K: Sink>(text: &mut Pending, out: &mut K, frame: &Frame, sizes: &[u32])
    ensures { Puts (place (K.written out.old) (K.faults out.old) text.old) (place (K.written out.new) (K.faults out.new) text.new)
        (spec.sizes_text (frame_term frame.now).class.props (frame_term frame.now).free_size sizes.now) }
{
    let props = frame.class.props.as_slice();
    put_sizes(text, out, props, frame.free_size.as_slice(), sizes);
}

/// A 0 of the hard items.
fn put_hard<K: Sink>(text: &mut Pending, out: &mut K, frame: &Frame, sizes: &[u32])
    ensures { Puts (place (K.written out.old) (K.faults out.old) text.old) (place (K.written out.new) (K.faults out.new) text.new)
        (codes "0 hard" ++ spec.sizes_text (frame_term frame.now).class.props (frame_term frame.now).free_size sizes.now) }
{
    text.put(out, b"0 hard");
    put_chosen(text, out, frame, sizes);
}

/// What answers 0.
fn put_zero<K: Sink>(text: &mut Pending, out: &mut K, frame: &Frame, phase: Part, sizes: &[u32])
    ensures { Puts (place (K.written out.old) (K.faults out.old) text.old) (place (K.written out.new) (K.faults out.new) text.new)
        (spec.zero_text (frame_term frame.now) phase sizes.now) }
{
    match phase {
        Part::Randc => text.put(out, b"0 randc"),
        Part::Sizes => text.put(out, b"0 size"),
        Part::All => put_hard(text, out, frame, sizes),
    }
}

/// A question of a cyclic property.
fn put_of_cycle<K: Sink>(text: &mut Pending, out: &mut K, frame: &Frame, prop: u32)
    ensures { Puts (place (K.written out.old) (K.faults out.old) text.old) (place (K.written out.new) (K.faults out.new) text.new)
        (codes "randc " ++ spec.prop_name (frame_term frame.now) prop) }
{
    text.put(out, b"randc ");
    put_name(text, out, frame, prop);
}

/// A question of a soft item.
fn put_of_rank<K: Sink>(text: &mut Pending, out: &mut K, rank: u32)
    ensures { Puts (place (K.written out.old) (K.faults out.old) text.old) (place (K.written out.new) (K.faults out.new) text.new)
        (codes "soft " ++ decimal rank) }
{
    text.put(out, b"soft ");
    text.put_number(out, rank);
}

/// What was asked for.
pub(crate) fn put_query<K: Sink>(text: &mut Pending, out: &mut K, frame: &Frame, query: Query)
    ensures { Puts (place (K.written out.old) (K.faults out.old) text.old) (place (K.written out.new) (K.faults out.new) text.new)
        (spec.query_text (frame_term frame.now) query) }
{
    match query {
        Query::Randc(prop) => put_of_cycle(text, out, frame, prop),
        Query::Size => text.put(out, b"size"),
        Query::Hard => text.put(out, b"hard"),
        Query::Soft(rank) => put_of_rank(text, out, rank),
    }
}

/// What an object has.
fn put_after<K: Sink>(text: &mut Pending, out: &mut K, frame: &Frame, after: &[Items<u64>])
    ensures { Puts (place (K.written out.old) (K.faults out.old) text.old) (place (K.written out.new) (K.faults out.new) text.new)
        (spec.values_text (frame_term frame.now).enums (frame_term frame.now).class.props after.now) }
{
    let enums = frame.enums.as_slice();
    let props = frame.class.props.as_slice();
    put_values(text, out, enums, props, after);
}

/// An answer 1.
fn put_one<K: Sink>(
    text: &mut Pending,
    out: &mut K,
    frame: &Frame,
    after: &[Items<u64>],
    cycles: &[Renewed],
    dropped: &[Dropped],
)
    ensures { Puts (place (K.written out.old) (K.faults out.old) text.old) (place (K.written out.new) (K.faults out.new) text.new)
        (concat (codes "1" ∷ spec.values_text (frame_term frame.now).enums (frame_term frame.now).class.props after.now ∷ flat_map (spec.cycle_text (frame_term frame.now)) cycles.now ∷ flat_map spec.dropped_text dropped.now ∷ [])) }
{
    text.put(out, b"1");
    put_after(text, out, frame, after);
    put_cycles(text, out, frame, cycles);
    put_all_dropped(text, out, dropped);
}

/// A weight beyond the limit.
fn put_weight<K: Sink>(text: &mut Pending, out: &mut K, weight: u128)
    ensures { Puts (place (K.written out.old) (K.faults out.old) text.old) (place (K.written out.new) (K.faults out.new) text.new)
        (codes "limit weight " ++ decimal weight) }
{
    text.put(out, b"limit weight ");
    text.put_number(out, weight);
}

/// A question that was given up.
fn put_given_up<K: Sink>(text: &mut Pending, out: &mut K, frame: &Frame, query: Query)
    ensures { Puts (place (K.written out.old) (K.faults out.old) text.old) (place (K.written out.new) (K.faults out.new) text.new)
        (codes "gaveup " ++ spec.query_text (frame_term frame.now) query) }
{
    text.put(out, b"gaveup ");
    put_query(text, out, frame, query);
}

/// What a call answers.
fn put_answer<K: Sink>(
    text: &mut Pending,
    out: &mut K,
    frame: &Frame,
    after: &[Items<u64>],
    outcome: &Outcome,
)
    ensures { Puts (place (K.written out.old) (K.faults out.old) text.old) (place (K.written out.new) (K.faults out.new) text.new)
        (spec.answer_text (frame_term frame.now) after.now outcome.now) }
{
    match outcome {
        Outcome::One {
            dropped,
            cycles,
            ..
        } => put_one(
            text,
            out,
            frame,
            after,
            cycles.as_slice(),
            dropped.as_slice(),
        ),
        Outcome::Zero { phase, sizes, .. } => put_zero(text, out, frame, *phase, sizes.as_slice()),
        Outcome::GaveUp { query, .. } => put_given_up(text, out, frame, *query),
        Outcome::TooHeavy { weight } => put_weight(text, out, *weight),
        Outcome::SizeCap { .. } => text.put(out, b"limit size"),
    }
}

/// Puts the line of a call of this number on an object variable of this name, which left these numbers.
pub fn put_line<K: Sink>(
    text: &mut Pending,
    out: &mut K,
    number: u64,
    object: &[u8],
    frame: &Frame,
    outcome: &Outcome,
    after: &[Items<u64>],
)
    ensures { (class : ℕ) (names : List (List ℕ)) (conflict : Option ConflictEnd) → Puts (place (K.written out.old) (K.faults out.old) text.old) (place (K.written out.new) (K.faults out.new) text.new)
        (spec.line_of (record { number = number; object = object.now; class = class; frame = frame_term frame.now; outcome = outcome.now; after = after.now; names = names; conflict = conflict })) }
{
    text.put(out, b"#");
    text.put_number(out, number);
    text.put(out, b" ");
    text.put(out, object);
    text.put(out, b" ");
    put_answer(text, out, frame, after, outcome);
    text.put(out, b"\n");
}
