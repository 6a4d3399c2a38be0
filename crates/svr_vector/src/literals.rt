// Vectors of literals for constants, for numbers at more bits, and for single bits.

ghost use Rattle.std.specs.Prelude.{◌≡◌, ◌≤◌, ◌<◌, ◌^◌, length, map, replicate, IfOk, false, true};
ghost use Rattle.svr_chain.specs.Clauses.{flip, IsWithin, AreWithin};
ghost use Rattle.svr_chain.specs.Valuations.{lit_value};
ghost use Rattle.svr_gate.specs.Numbers.{number};
ghost use Rattle.svr_gate.specs.Circuit.{Extends, Tells, GivesNumber};
ghost use Rattle.svr_num.specs.Num.{extend_of};
ghost use Rattle.svr_eval.specs.Value as spec;
ghost use Rattle.svr_vector.specs.Literals.{chosen};

use crate::memory::NoMemory;
use std::alloc::Global;
use svr_chain::Lit;
use svr_gate::{Builder, table};
use svr_shape::extend;

/// A literal that always has this value.
pub fn constant(b: &mut Builder, value: bool) -> Result<Lit, NoMemory>
    ensures extends { Extends b.old b.new }
    ensures value { IfOk result (λ l. Tells b.new l (λ _. value)) }
{
    let one = b.define::<0>(table!(always), [])?;
    Ok(chosen(one, value))
}

/// The literal, or the one of the other sign.
fn chosen(lit: Lit, same: bool) -> Lit
    ensures { result ≡ chosen lit same }
{
    if same { lit } else { lit.flipped() }
}

/// Literals that always read as this number.
pub fn numeral(alloc: Global, b: &mut Builder, number: u64, width: u8) -> Result<Vec<Lit>, NoMemory>
    requires wide { width ≤ 64 }
    requires fits { number < 2 ^ width }
    ensures extends { Extends b.old b.new }
    ensures value { IfOk result (λ v. GivesNumber b.new v.items width (λ _. number)) }
{
    let one = constant(b, true)?;
    let mut v = Vec::new(alloc);
    for i in 0..width {
        v.push(chosen(one, (number >> i) % 2 == 1))?;
    }
    Ok(v)
}

/// A number of `own` bits that is always this one, at the width and the sign of a context (11.8.2).
pub fn constant_at(
    alloc: Global,
    b: &mut Builder,
    number: u64,
    own: u8,
    width: u8,
    signed: bool,
) -> Result<Vec<Lit>, NoMemory>
    requires some { 1 ≤ own }
    requires wide { own ≤ width }
    requires high { width ≤ 64 }
    requires fits { number < 2 ^ own }
    ensures extends { Extends b.old b.new }
    ensures value { IfOk result (λ v. GivesNumber b.new v.items width (λ _. extend_of signed width own number)) }
{
    let own_bits = numeral(alloc, b, number, own)?;
    Ok(extend(alloc, b, &own_bits, width, signed)?)
}

/// A number whose higher bits up to `own` are 0, at the width and the sign of a context (11.8.2).
pub fn filled_at(
    alloc: Global,
    b: &mut Builder,
    x: &[Lit],
    own: u8,
    width: u8,
    signed: bool,
) -> Result<Vec<Lit>, NoMemory>
    requires some { 1 ≤ length x.now }
    requires few { length x.now ≤ own }
    requires wide { own ≤ width }
    requires high { width ≤ 64 }
    requires within { AreWithin b.old.vars x.now }
    ensures extends { Extends b.old b.new }
    ensures value { IfOk result (λ v. GivesNumber b.new v.items width (λ a. extend_of signed width own (number a x.now))) }
{
    let own_bits = extend(alloc, b, x, own, false)?;
    Ok(extend(alloc, b, &own_bits, width, signed)?)
}

/// Copies of one literal.
fn repeated(alloc: Global, lit: Lit, count: usize) -> Result<Vec<Lit>, NoMemory>
    ensures { IfOk result (λ v. v.items ≡ replicate count lit) }
{
    Ok(vec![in alloc; lit; count]?)
}

/// A literal of width `own` that is written in the text (5.7.1): where `every` is set, each bit is the same.
pub fn literal_at(
    alloc: Global,
    b: &mut Builder,
    number: u64,
    every: bool,
    own: u8,
    width: u8,
    signed: bool,
) -> Result<Vec<Lit>, NoMemory>
    requires some { 1 ≤ own }
    requires wide { own ≤ width }
    requires high { width ≤ 64 }
    requires fits { number < 2 ^ own }
    ensures extends { Extends b.old b.new }
    ensures value { IfOk result (λ v. GivesNumber b.new v.items width (λ _. spec.literal width own signed every number)) }
{
    if !every {
        return constant_at(alloc, b, number, own, width, signed);
    }
    let bit = constant(b, number != 0)?;
    Ok(repeated(alloc, bit, width as usize)?)
}

/// One bit, at the width and the sign of a context.
pub fn truth_at(
    alloc: Global,
    b: &mut Builder,
    bit: Lit,
    width: u8,
    signed: bool,
) -> Result<Vec<Lit>, NoMemory>
    requires low { 1 ≤ width }
    requires high { width ≤ 64 }
    requires within { IsWithin b.old.vars bit }
    ensures extends { Extends b.old b.new }
    ensures value { IfOk result (λ v. GivesNumber b.new v.items width (λ a. spec.truth width signed (lit_value a bit))) }
{
    Ok(extend(alloc, b, &[bit], width, signed)?)
}

/// Each literal with the other sign.
pub(crate) fn flipped(alloc: Global, x: &[Lit]) -> Result<Vec<Lit>, NoMemory>
    ensures { IfOk result (λ v. v.items ≡ map flip x.now) }
{
    Ok(x.iter().map(|lit| lit.flipped()).collect(alloc)?)
}
