// Bits at an index that is a vector too.

ghost use Rattle.std.specs.Prelude.{◌≡◌, ◌≤◌, ◌<◌, ◌^◌, ◌*◌, ◌-ℤ◌, ◌<ℤ◌, ◌≤ℤ◌, neg_ℤ, pos, ℕ, ⊤, length, IfOk, MatchOption};
ghost use Rattle.svr_chain.specs.Clauses.{AreWithin};
ghost use Rattle.svr_gate.specs.Numbers.{bit as bit_number, number};
ghost use Rattle.svr_gate.specs.Circuit.{Extends, Tells, GivesNumber};
ghost use Rattle.svr_num.specs.Num.{read_of, residue};
ghost use Rattle.svr_eval.specs.Value as spec;
ghost use Rattle.std.specs.Ordering.{int_eq};
ghost use Rattle.svr_vector.specs.Places.{bit_at_place};

use crate::literals::{constant, numeral};
use crate::memory::NoMemory;
use std::alloc::Global;
use svr_arith::equal;
use svr_chain::Lit;
use svr_gate::{Builder, table};
use svr_num::Bits;

/// What a bit adds to a number.
fn weight(bit: bool, place: usize) -> u64
    requires { place < 64 }
    ensures { result ≡ 2 ^ place * bit_number bit }
{
    if bit { 1 << place } else { 0 }
}

/// The number that the literals always read as, where that is known.
pub fn known_number(b: &Builder, x: &[Lit]) -> Option<u64>
    requires few { length x.now ≤ 64 }
    requires within { AreWithin b.now.vars x.now }
    ensures { MatchOption result ⊤ (λ n. GivesNumber b.now x.now (length x.now) (λ _. n) × (n < 2 ^ length x.now)) }
{
    let mut number = 0;
    for i in 0..x.len() {
        let Some(bit) = b.known(x[i]) else {
            return None;
        };
        number += weight(bit, i);
    }
    Some(number)
}

/// A number of this many bits.
fn bits(number: u64, width: u8) -> Bits
    requires low { 1 ≤ width }
    requires high { width ≤ 64 }
    requires fits { number < 2 ^ width }
    ensures { result ≡ record { value = number; width = width } }
{
    Bits::wrap(u128::from(number), width)
}

/// The whole number that `width` bits read as.
pub fn read(number: u64, width: u8, signed: bool) -> i128
    requires low { 1 ≤ width }
    requires high { width ≤ 64 }
    requires fits { number < 2 ^ width }
    ensures { result ≡ read_of signed width number }
{
    if signed {
        bits(number, width).signed()
    } else {
        i128::from(number)
    }
}

/// A whole number modulo 2 to the power of `width`.
fn wrapped(place: i128, width: u8) -> u64
    requires low { 1 ≤ width }
    requires high { width ≤ 64 }
    ensures value { result ≡ residue width place }
    ensures below { result < 2 ^ width }
{
    let size = 1u128 << width;
    let number = if place >= 0 {
        place as u128 % size
    } else {
        size - 1 - (-1 - place) as u128 % size
    };
    number as u64
}

/// The number that `width` bits have to be to read as `place`, where there is one.
fn spelled(place: i128, width: u8, signed: bool) -> Option<u64>
    requires low { 1 ≤ width }
    requires high { width ≤ 64 }
    ensures { MatchOption result ((n : ℕ) → n < 2 ^ width → read_of signed width n ≡ place → ⊥) (λ n. (n < 2 ^ width) × (read_of signed width n ≡ place)) }
{
    let number = wrapped(place, width);
    if read(number, width, signed) == place {
        Some(number)
    } else {
        None
    }
}

/// Whether the vector reads as `place`.
pub(crate) fn is_place(
    alloc: Global,
    b: &mut Builder,
    x: &[Lit],
    signed: bool,
    place: i128,
) -> Result<Lit, NoMemory>
    requires some { 1 ≤ length x.now }
    requires few { length x.now ≤ 64 }
    requires within { AreWithin b.old.vars x.now }
    ensures extends { Extends b.old b.new }
    ensures value { IfOk result (λ l. Tells b.new l (λ a. int_eq (read_of signed (length x.now) (number a x.now)) place)) }
{
    match spelled(place, x.len() as u8, signed) {
        Some(number) => {
            let wanted = numeral(alloc, b, number, x.len() as u8)?;
            Ok(equal(b, x, &wanted)?)
        }
        None => {
            let never = constant(b, false)?;
            Ok(never)
        }
    }
}

/// The number that a place is, where it is one below `limit`.
pub fn index_below(place: i128, limit: u64) -> Option<u64>
    ensures { MatchOption result ((k : ℕ) → k < limit → place ≡ pos k → ⊥) (λ k. (place ≡ pos k) × (k < limit)) }
{
    if place >= 0 && place < i128::from(limit) {
        Some(place as u64)
    } else {
        None
    }
}

/// The bit of a vector at a place, by numbers that begin at `low` (11.5.1); 0 outside.
fn bit_of(
    alloc: Global,
    b: &mut Builder,
    x: &[Lit],
    index: &[Lit],
    signed: bool,
    low: i128,
) -> Result<Lit, NoMemory>
    requires some { 1 ≤ length index.now }
    requires few { length index.now ≤ 64 }
    requires long { length x.now ≤ 64 }
    requires index_within { AreWithin b.old.vars index.now }
    requires within { AreWithin b.old.vars x.now }
    requires low_from { neg_ℤ (pos (2 ^ 64)) ≤ℤ low }
    requires low_to { low ≤ℤ pos (2 ^ 64) }
    ensures extends { Extends b.old b.new }
    ensures value { IfOk result (λ l. Tells b.new l (λ a. bit_at_place (read_of signed (length index.now) (number a index.now) -ℤ low) (number a x.now))) }
{
    match known_number(b, index) {
        Some(number) => {
            let place = read(number, index.len() as u8, signed) - low;
            bit_at(b, x, place)
        }
        None => some_bit(alloc, b, x, index, signed, low),
    }
}

/// The bit of a vector at a fixed place; 0 outside.
fn bit_at(b: &mut Builder, x: &[Lit], place: i128) -> Result<Lit, NoMemory>
    requires { AreWithin b.old.vars x.now }
    ensures extends { Extends b.old b.new }
    ensures value { IfOk result (λ l. Tells b.new l (λ a. bit_at_place place (number a x.now))) }
{
    match index_below(place, x.len() as u64) {
        Some(index) => Ok(x[index as usize]),
        None => {
            let zero = constant(b, false)?;
            Ok(zero)
        }
    }
}

/// A choice over all bits of a vector by an index.
fn some_bit(
    alloc: Global,
    b: &mut Builder,
    x: &[Lit],
    index: &[Lit],
    signed: bool,
    low: i128,
) -> Result<Lit, NoMemory>
    requires some { 1 ≤ length index.now }
    requires few { length index.now ≤ 64 }
    requires long { length x.now ≤ 64 }
    requires index_within { AreWithin b.old.vars index.now }
    requires within { AreWithin b.old.vars x.now }
    requires low_from { neg_ℤ (pos (2 ^ 64)) ≤ℤ low }
    requires low_to { low ≤ℤ pos (2 ^ 64) }
    ensures extends { Extends b.old b.new }
    ensures value { IfOk result (λ l. Tells b.new l (λ a. bit_at_place (read_of signed (length index.now) (number a index.now) -ℤ low) (number a x.now))) }
{
    let mut found = constant(b, false)?;
    for i in 0..x.len() {
        let place = low + i as i128;
        let is_here = is_place(alloc, b, index, signed, place)?;
        found = b.define::<3>(table!(choice), [is_here, x[i], found])?;
    }
    Ok(found)
}

/// `width` bits of a vector from the bit on that an index names, by numbers that begin at `low` (11.5.1); bits outside are 0.
pub fn bits_from(
    alloc: Global,
    b: &mut Builder,
    x: &[Lit],
    index: &[Lit],
    signed: bool,
    low: i64,
    width: u8,
) -> Result<Vec<Lit>, NoMemory>
    requires some { 1 ≤ length index.now }
    requires few { length index.now ≤ 64 }
    requires long { length x.now ≤ 64 }
    requires index_within { AreWithin b.old.vars index.now }
    requires within { AreWithin b.old.vars x.now }
    requires high { width ≤ 64 }
    ensures extends { Extends b.old b.new }
    ensures value { IfOk result (λ ls. GivesNumber b.new ls.items width (λ a. spec.bits_from (read_of signed (length index.now) (number a index.now) -ℤ low) width (number a x.now))) }
{
    let mut bits = Vec::new(alloc);
    for k in 0..width {
        let bit = bit_of(alloc, b, x, index, signed, i128::from(low) - i128::from(k))?;
        bits.push(bit)?;
    }
    Ok(bits)
}
