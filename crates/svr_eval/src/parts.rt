// The parts of a value: literals, elements, selected and joined bits.

ghost use Rattle.std.specs.Prelude.{◌≡◌, ◌≤◌, ◌<◌, ◌+◌, ◌*◌, ◌/◌, ◌^◌, ◌%◌, ◌<ℤ◌, ◌-ℤ◌, pos};
ghost use Rattle.svr_num.specs.Num.{read_of};
ghost use Rattle.svr_eval.specs.Reading.{reading_of};
ghost use Rattle.svr_eval.specs.Value as spec;

use crate::assign::Assign;
use svr_num::Bits;

/// A value that fits its width.
pub(crate) fn bits(value: u64, width: u8) -> Bits
    requires low { 1 ≤ width }
    requires high { width ≤ 64 }
    requires fits { value < 2 ^ width }
    ensures { result ≡ record { value = value; width = width } }
{
    Bits::wrap(u128::from(value), width)
}

/// A literal of width `own` in a context. One of every bit fills the context.
pub(crate) fn literal(value: u64, every: bool, own: u8, width: u8, signed: bool) -> Bits
    requires low { 1 ≤ own }
    requires wide { own ≤ width }
    requires high { width ≤ 64 }
    requires fits { value < 2 ^ own }
    ensures value { result.value ≡ spec.literal width own signed every value }
    ensures width { result.width ≡ width }
{
    if !every {
        return bits(value, own).extend(width, signed);
    }
    let zeros = bits(0, width);
    if value == 0 { zeros } else { zeros.not() }
}

/// One bit, in a context.
pub(crate) fn truth(set: bool, width: u8, signed: bool) -> Bits
    requires low { 1 ≤ width }
    requires high { width ≤ 64 }
    ensures value { result.value ≡ spec.truth width signed set }
    ensures width { result.width ≡ width }
{
    bits(u64::from(set), 1).extend(width, signed)
}

/// The whole number that the bits read as.
pub(crate) fn read(x: Bits, signed: bool) -> i128
    ensures { result ≡ read_of signed x.width x.value }
{
    if signed {
        x.signed()
    } else {
        i128::from(x.value())
    }
}

/// The place of a bit in its vector, by the number that its range declares. `low` is that of the lowest bit.
pub(crate) fn place_of(number: Bits, signed: bool, low: i64) -> i128
    ensures { result ≡ read_of signed number.width number.value -ℤ low }
{
    read(number, signed) - i128::from(low)
}

/// The element that an index names, 0 where there is none.
pub(crate) fn element_at(a: &Assign, prop: u32, index: i128) -> u64
    ensures { result ≡ spec.element_at (reading_of a.now) prop index }
{
    if index < 0 {
        0
    } else {
        a.element_at(prop, index as u128)
    }
}

/// The element of an array with rows of `inner` elements that a row and a column name, 0 where there is none.
pub(crate) fn cell_at(a: &Assign, prop: u32, inner: u32, row: i128, column: i128) -> u64
    requires row { row <ℤ pos (2 ^ 64) }
    requires column { column <ℤ pos (2 ^ 64) }
    ensures { result ≡ spec.cell_at (reading_of a.now) prop inner row column }
{
    if row < 0 || column < 0 {
        0
    } else {
        cell_in(a, prop, inner, row as u128, column as u128)
    }
}

/// The element in the row and the column, 0 where a row has no such column.
fn cell_in(a: &Assign, prop: u32, inner: u32, row: u128, column: u128) -> u64
    requires { row < 2 ^ 64 }
    ensures { result ≡ spec.cell_at (reading_of a.now) prop inner (pos row) (pos column) }
{
    if column < u128::from(inner) {
        a.element_at(prop, row * u128::from(inner) + column)
    } else {
        0
    }
}

/// `width` bits of a vector from one of its bits on. Bits outside the vector are 0.
pub(crate) fn bits_from(whole: Bits, from: i128, width: u8) -> Bits
    requires low { 1 ≤ width }
    requires high { width ≤ 64 }
    ensures value { result.value ≡ spec.bits_from from width whole.value }
    ensures width { result.width ≡ width }
{
    if from < 0 {
        bits_above(whole.value(), from.unsigned_abs(), width)
    } else {
        bits_below(whole.value(), from as u128, width)
    }
}

/// The low `width` bits of a value without its `by` lowest ones.
fn bits_below(value: u64, by: u128, width: u8) -> Bits
    requires low { 1 ≤ width }
    requires high { width ≤ 64 }
    ensures value { result.value ≡ value / 2 ^ by % 2 ^ width }
    ensures width { result.width ≡ width }
{
    if by < 64 {
        Bits::wrap(u128::from(value) >> by, width)
    } else {
        bits(0, width)
    }
}

/// The low `width` bits of a value with `by` zeros below it.
fn bits_above(value: u64, by: u128, width: u8) -> Bits
    requires low { 1 ≤ width }
    requires high { width ≤ 64 }
    ensures value { result.value ≡ value * 2 ^ by % 2 ^ width }
    ensures width { result.width ≡ width }
{
    if by < 64 {
        Bits::wrap(u128::from(value) << by, width)
    } else {
        bits(0, width)
    }
}

/// The bits of the first above those of the second.
pub(crate) fn join(high: Bits, low: Bits) -> Bits
    requires { high.width + low.width ≤ 64 }
    ensures value { result.value ≡ high.value * 2 ^ low.width + low.value }
    ensures width { result.width ≡ high.width + low.width }
{
    let whole = (u128::from(high.value()) << low.width()) + u128::from(low.value());
    Bits::wrap(whole, high.width() + low.width())
}

/// So many copies of a part.
pub(crate) fn copied(count: u64, part: Bits) -> Bits
    requires some { 1 ≤ count }
    requires high { count * part.width ≤ 64 }
    ensures value { result.value ≡ spec.copied count part.width part.value }
    ensures width { result.width ≡ count * part.width }
{
    let mut whole = part;
    for made in 1..count {
        whole = join(whole, part);
    }
    whole
}
