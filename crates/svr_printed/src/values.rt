// The values of an object.

ghost use Rattle.std.specs.Prelude.{◌≡◌, ◌++◌, ◌∷◌, [], cond, codes, map, slice_index};
ghost use Rattle.std.specs.List.{concat};
ghost use Rattle.svr_stream.specs.Puts.{Puts, place};
ghost use Rattle.svr_script.specs.Printed as spec;
ghost use Rattle.svr_printed.specs.Parts.{none_left};

use crate::names::put_declared;
use crate::numbers::put_value;
use sqlite_items::Items;
use svr_edge::Sink;
use svr_stream::Pending;
use svr_typed::{ArrayKind, EnumType, NumType, Prop};

/// Whether no number is left.
fn is_end(numbers: &[u64]) -> bool
    ensures { result ≡ none_left numbers.now }
{
    match numbers {
        [] => true,
        [_, ..] => false,
    }
}

/// A comma where others stand behind.
fn put_comma<K: Sink>(text: &mut Pending, out: &mut K, is_last: bool)
    ensures { Puts (place (K.written out.old) (K.faults out.old) text.old) (place (K.written out.new) (K.faults out.new) text.new)
        (cond is_last [] (codes ",")) }
{
    if !is_last {
        text.put(out, b",")
    }
}

/// An element of an array, and a comma where others stand behind it.
fn put_element<K: Sink>(
    text: &mut Pending,
    out: &mut K,
    enums: &[EnumType],
    kind: NumType,
    value: u64,
    is_last: bool,
)
    ensures { Puts (place (K.written out.old) (K.faults out.old) text.old) (place (K.written out.new) (K.faults out.new) text.new)
        (spec.value_text enums.now kind value ++ cond is_last [] (codes ",")) }
{
    put_value(text, out, enums, kind, value);
    put_comma(text, out, is_last);
}

/// The elements of an array, with commas between them.
fn put_elements<K: Sink>(
    text: &mut Pending,
    out: &mut K,
    enums: &[EnumType],
    kind: NumType,
    numbers: &[u64],
)
    ensures { Puts (place (K.written out.old) (K.faults out.old) text.old) (place (K.written out.new) (K.faults out.new) text.new)
        (spec.with_commas (map (spec.value_text enums.now kind) numbers.now)) }
{
    let mut left = numbers;
    while let [number, others @ ..] = left {
        put_element(text, out, enums, kind, *number, is_end(others));
        left = others;
    }
}

/// The elements of an array in brackets.
fn put_bracketed<K: Sink>(
    text: &mut Pending,
    out: &mut K,
    enums: &[EnumType],
    kind: NumType,
    numbers: &[u64],
)
    ensures { Puts (place (K.written out.old) (K.faults out.old) text.old) (place (K.written out.new) (K.faults out.new) text.new)
        (spec.bracketed (map (spec.value_text enums.now kind) numbers.now)) }
{
    text.put(out, b"[");
    put_elements(text, out, enums, kind, numbers);
    text.put(out, b"]");
}

/// The number of a scalar property.
fn first_of(numbers: &[u64]) -> u64
    ensures { result ≡ slice_index numbers.now 0 }
{
    match numbers.first() {
        Some(number) => *number,
        None => 0,
    }
}

/// What a property has.
fn put_numbers<K: Sink>(
    text: &mut Pending,
    out: &mut K,
    enums: &[EnumType],
    prop: &Prop,
    numbers: &[u64],
)
    ensures { Puts (place (K.written out.old) (K.faults out.old) text.old) (place (K.written out.new) (K.faults out.new) text.new)
        (spec.numbers_text enums.now prop.now.kind prop.now.array numbers.now) }
{
    match prop.array {
        ArrayKind::Scalar => put_value(text, out, enums, prop.kind, first_of(numbers)),
        ArrayKind::Fixed(_) => put_bracketed(text, out, enums, prop.kind, numbers),
        ArrayKind::Dynamic => put_bracketed(text, out, enums, prop.kind, numbers),
    }
}

/// A property and what it has, with a space before it.
fn put_one_value<K: Sink>(
    text: &mut Pending,
    out: &mut K,
    enums: &[EnumType],
    prop: &Prop,
    numbers: &[u64],
)
    ensures { Puts (place (K.written out.old) (K.faults out.old) text.old) (place (K.written out.new) (K.faults out.new) text.new)
        (concat (codes " " ∷ prop.now.name ∷ codes "=" ∷ spec.numbers_text enums.now prop.now.kind prop.now.array numbers.now ∷ [])) }
{
    text.put(out, b" ");
    put_declared(text, out, prop);
    text.put(out, b"=");
    put_numbers(text, out, enums, prop, numbers);
}

/// A property and the list of its numbers.
fn put_listed<K: Sink>(
    text: &mut Pending,
    out: &mut K,
    enums: &[EnumType],
    prop: &Prop,
    numbers: &Items<u64>,
)
    ensures { Puts (place (K.written out.old) (K.faults out.old) text.old) (place (K.written out.new) (K.faults out.new) text.new)
        (concat (codes " " ∷ prop.now.name ∷ codes "=" ∷ spec.numbers_text enums.now prop.now.kind prop.now.array numbers.now ∷ [])) }
{
    put_one_value(text, out, enums, prop, numbers.as_slice());
}

/// Each property and what it has.
pub(crate) fn put_values<K: Sink>(
    text: &mut Pending,
    out: &mut K,
    enums: &[EnumType],
    props: &[Prop],
    values: &[Items<u64>],
)
    ensures { Puts (place (K.written out.old) (K.faults out.old) text.old) (place (K.written out.new) (K.faults out.new) text.new)
        (spec.values_text enums.now props.now values.now) }
{
    let mut props_left = props;
    let mut values_left = values;
    while let [prop, other_props @ ..] = props_left {
        let [numbers, other_values @ ..] = values_left else {
            return;
        };
        put_listed(text, out, enums, prop, numbers);
        props_left = other_props;
        values_left = other_values;
    }
}
