//! Division without signs, by restoring.

ghost use Rattle.std.specs.Prelude.{◌≡◌, ◌==◌, ◌-◌, ◌+◌, ◌^◌, ◌<◌, ◌&&◌, ℕ, Bool, length, nat_le, not, true, false, IfOk, if◌then◌else◌};
ghost use Rattle.svr_chain.specs.Clauses.{IsWithin, AreWithin};
ghost use Rattle.svr_chain.specs.Valuations.{lit_value, Meets};
ghost use Rattle.svr_gate.specs.Numbers.{number};
ghost use Rattle.svr_gate.specs.Circuit.{Extends, Tells, GivesNumber};
ghost use Rattle.svr_num.specs.Num.{div_of, rem_of};
ghost use Rattle.svr_arith.specs.Division.{TellHighZeros, Divides};

use crate::adder::{difference, zeros};
use crate::memory::NoMemory;
use crate::product::masked;
use std::alloc::Global;
use svr_chain::Lit;
use svr_gate::{Builder, table};
use svr_shape::choose;

/// A quotient and a remainder, and whether the divisor is other than 0.
#[derive(Drop)]
struct Division {
    quotient: Vec<Lit>,
    rest: Vec<Lit>,
    is_defined: Lit,
}

/// For each t from 0 to the length of `y`, whether its t highest literals read as 0.
fn high_zeros(alloc: Global, b: &mut Builder, y: &[Lit]) -> Result<Vec<Lit>, NoMemory>
    requires { AreWithin b.old.vars y.now }
    ensures extends { Extends b.old b.new }
    ensures len { IfOk result (λ v. length v.items ≡ length y.now + 1) }
    ensures value { IfOk result (λ v. TellHighZeros b.new v.items y.now) }
{
    let mut are_zero = b.define::<0>(table!(always), [])?;
    let mut zeros = Vec::with_capacity(alloc, y.len() + 1)?;
    zeros.push_reserved(are_zero);
    for i in 0..y.len() {
        let is_zero = y[y.len() - 1 - i].flipped();
        are_zero = b.define::<2>(table!(both), [are_zero, is_zero])?;
        zeros.push_reserved(are_zero);
    }
    Ok(zeros)
}

/// Whether a literal is known to be false.
fn is_never(b: &Builder, lit: Lit) -> bool
    requires { IsWithin b.now.vars lit }
    ensures { result ≡ true → Tells b.now lit (λ _. false) }
{
    match b.known(lit) {
        Some(value) => !value,
        None => false,
    }
}

/// How many bits a number takes at most: all of its literals behind so many are known to be false.
fn known_bits(b: &Builder, y: &[Lit]) -> usize
    requires { AreWithin b.now.vars y.now }
    ensures { (a : ℕ → Bool) → Meets a b.now.clauses → number a y.now < 2 ^ result }
{
    let mut bits = y.len();
    'zeros: while bits > 0 {
        if !is_never(b, y[bits - 1]) {
            return bits;
        }
        bits -= 1;
    }
    bits
}

/// The same number, where it takes no more than so many bits: the literals behind them are known to be false.
fn shortened(alloc: Global, b: &mut Builder, x: &[Lit], bits: usize) -> Result<Vec<Lit>, NoMemory>
    requires { AreWithin b.old.vars x.now }
    ensures extends { Extends b.old b.new }
    ensures within { IfOk result (λ v. AreWithin b.new.vars v.items) }
    ensures len { IfOk result (λ v. length v.items ≡ length x.now) }
    ensures value { IfOk result (λ v. (a : ℕ → Bool) → Meets a b.new.clauses → number a x.now < 2 ^ bits → number a v.items ≡ number a x.now) }
{
    if x.len() <= bits {
        return Ok(Vec::from_slice(alloc, x)?);
    }
    let zeros = zeros(alloc, b, x.len() - bits)?;
    let mut short = Vec::from_slice(alloc, &x[..bits])?;
    short.extend_from_slice(&zeros)?;
    Ok(short)
}

/// One step of a long division: whether `y` goes into `rest`, and what is left then. `fits` says
/// that the divisor has no higher bits than those of `y`.
fn step(
    alloc: Global,
    b: &mut Builder,
    rest: &[Lit],
    y: &[Lit],
    fits: Lit,
) -> Result<(Lit, Vec<Lit>), NoMemory>
    requires len { length rest.now ≡ length y.now }
    requires rest_within { AreWithin b.old.vars rest.now }
    requires y_within { AreWithin b.old.vars y.now }
    requires fits_within { IsWithin b.old.vars fits }
    ensures extends { Extends b.old b.new }
    ensures goes { IfOk result (λ s. Tells b.new s.0 (λ a. lit_value a fits && nat_le (number a y.now) (number a rest.now))) }
    ensures rest { IfOk result (λ s. GivesNumber b.new s.1.items (length rest.now) (λ a. if lit_value a fits && nat_le (number a y.now) (number a rest.now) then number a rest.now - number a y.now else number a rest.now)) }
{
    let mut less = difference(alloc, b, rest, y)?;
    let is_enough = less[rest.len()];
    less.truncate(rest.len());
    let goes = b.define::<2>(table!(both), [fits, is_enough])?;
    let left = choose(alloc, b, goes, &less, rest)?;
    Ok((goes, left))
}

/// The long division without signs, from the highest bit of `x` down: after i bits the rest
/// stands in i bits, and in no more than the divisor is known to take.
fn divide(alloc: Global, b: &mut Builder, x: &[Lit], y: &[Lit]) -> Result<Division, NoMemory>
    requires len { length x.now ≡ length y.now }
    requires x_within { AreWithin b.old.vars x.now }
    requires y_within { AreWithin b.old.vars y.now }
    ensures extends { Extends b.old b.new }
    ensures is_defined { IfOk result (λ d. Tells b.new d.is_defined (λ a. not (number a y.now == 0))) }
    ensures divides { IfOk result (λ d. Divides b.new d.quotient.items d.rest.items (length x.now) (λ a. number a x.now) (λ a. number a y.now)) }
{
    let zeros = high_zeros(alloc, b, y)?;
    let bits = known_bits(b, y);
    let mut quotient = Vec::new(alloc);
    let mut rest = Vec::new(alloc);
    for i in 0..x.len() {
        let place = x.len() - 1 - i;
        rest.insert(0, x[place])?;
        let (goes, left) = step(alloc, b, &rest, &y[..i + 1], zeros[place])?;
        quotient.insert(0, goes)?;
        rest = shortened(alloc, b, &left, bits)?;
    }
    let is_defined = zeros[y.len()].flipped();
    Ok(Division {
        quotient,
        rest,
        is_defined,
    })
}

/// The quotient without signs, 0 at a divisor of 0.
pub(crate) fn quotient(
    alloc: Global,
    b: &mut Builder,
    x: &[Lit],
    y: &[Lit],
) -> Result<Vec<Lit>, NoMemory>
    requires len { length x.now ≡ length y.now }
    requires x_within { AreWithin b.old.vars x.now }
    requires y_within { AreWithin b.old.vars y.now }
    ensures extends { Extends b.old b.new }
    ensures value { IfOk result (λ v. GivesNumber b.new v.items (length x.now) (λ a. div_of false (length x.now) (number a x.now) (number a y.now))) }
{
    let division = divide(alloc, b, x, y)?;
    masked(alloc, b, division.is_defined, &division.quotient)
}

/// The remainder without signs, 0 at a divisor of 0.
pub(crate) fn remainder(
    alloc: Global,
    b: &mut Builder,
    x: &[Lit],
    y: &[Lit],
) -> Result<Vec<Lit>, NoMemory>
    requires len { length x.now ≡ length y.now }
    requires x_within { AreWithin b.old.vars x.now }
    requires y_within { AreWithin b.old.vars y.now }
    ensures extends { Extends b.old b.new }
    ensures value { IfOk result (λ v. GivesNumber b.new v.items (length x.now) (λ a. rem_of false (length x.now) (number a x.now) (number a y.now))) }
{
    let division = divide(alloc, b, x, y)?;
    masked(alloc, b, division.is_defined, &division.rest)
}
