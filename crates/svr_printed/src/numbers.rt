// Numbers as values of a type.

ghost use Rattle.std.specs.Prelude.{◌≡◌, ◌≤◌, ◌<◌, ◌-◌, ◌^◌};
ghost use Rattle.std.specs.Fmt.{signed_decimal};
ghost use Rattle.svr_num.specs.Num.{read_of, signed_of};
ghost use Rattle.svr_stream.specs.Puts.{Puts, place};
ghost use Rattle.svr_script.specs.Printed as spec;

use crate::names::member_name;
use svr_edge::Sink;
use svr_stream::Pending;
use svr_typed::{EnumType, NumType};

/// How many numbers have `width` bits.
fn size(width: u8) -> u128
    requires { width ≤ 64 }
    ensures { result ≡ 2 ^ width }
{
    1 << width
}

/// A number whose highest bit is not set.
fn low(value: u64, width: u8) -> i128
    requires { value < 2 ^ (width - 1) }
    ensures { result ≡ signed_of width value }
{
    value as i128
}

/// A number of 64 bits among more bits than these.
fn widened(value: u64, width: u8) -> i128
    requires { 64 < width }
    ensures { result ≡ signed_of width value }
{
    low(value, width)
}

/// What a number reads as in two's complement, where the highest of `width` bits is the sign (IEEE 1800-2017, 6.11.3). A number of more bits than these reads as -1.
fn signed_of(value: u64, width: u8) -> i128
    ensures { result ≡ signed_of width value }
{
    if width > 64 {
        return widened(value, width);
    }
    if u128::from(value) < size(width.saturating_sub(1)) {
        return low(value, width);
    }
    if u128::from(value) < size(width) {
        return i128::from(value) - size(width) as i128;
    }
    -1
}

/// A number in decimal, with its sign.
fn put_signed<K: Sink>(text: &mut Pending, out: &mut K, kind: NumType, value: u64)
    ensures { Puts (place (K.written out.old) (K.faults out.old) text.old) (place (K.written out.new) (K.faults out.new) text.new)
        (signed_decimal (signed_of kind.width value)) }
{
    text.put_number(out, signed_of(value, kind.width));
}

/// A number in decimal, with its sign where the type has one.
fn put_typed<K: Sink>(text: &mut Pending, out: &mut K, kind: NumType, value: u64)
    ensures { Puts (place (K.written out.old) (K.faults out.old) text.old) (place (K.written out.new) (K.faults out.new) text.new)
        (signed_decimal (read_of kind.signed kind.width value)) }
{
    if kind.signed {
        put_signed(text, out, kind, value)
    } else {
        text.put_number(out, value)
    }
}

/// A member of its enum by name, and any other number in decimal.
pub(crate) fn put_value<K: Sink>(
    text: &mut Pending,
    out: &mut K,
    enums: &[EnumType],
    kind: NumType,
    value: u64,
)
    ensures { Puts (place (K.written out.old) (K.faults out.old) text.old) (place (K.written out.new) (K.faults out.new) text.new)
        (spec.value_text enums.now kind value) }
{
    match member_name(enums, kind.members, value) {
        Some(name) => text.put(out, name),
        None => put_typed(text, out, kind, value),
    }
}
