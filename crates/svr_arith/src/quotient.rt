//! Quotients and remainders: with a sign they are those of the magnitudes.

ghost use Rattle.std.specs.Prelude.{◌≡◌, ◌≤◌, length, unsigned_abs, true, IfOk, if◌then◌else◌};
ghost use Rattle.svr_chain.specs.Clauses.{IsWithin, AreWithin};
ghost use Rattle.svr_chain.specs.Valuations.{lit_value};
ghost use Rattle.svr_gate.specs.Numbers.{number};
ghost use Rattle.svr_gate.specs.Circuit.{Extends, GivesNumber};
ghost use Rattle.svr_num.specs.Num.{signed_of, neg_of, div_of, rem_of};

use crate::adder::neg;
use crate::division::{quotient, remainder};
use crate::memory::NoMemory;
use std::alloc::Global;
use svr_chain::Lit;
use svr_gate::{Builder, table};
use svr_shape::choose;

/// `-x` where `sign` holds, else `x`.
fn with_sign(alloc: Global, b: &mut Builder, sign: Lit, x: &[Lit]) -> Result<Vec<Lit>, NoMemory>
    requires sign_within { IsWithin b.old.vars sign }
    requires x_within { AreWithin b.old.vars x.now }
    ensures extends { Extends b.old b.new }
    ensures value { IfOk result (λ v. GivesNumber b.new v.items (length x.now) (λ a. if lit_value a sign then neg_of (length x.now) (number a x.now) else number a x.now)) }
{
    let negated = neg(alloc, b, x)?;
    Ok(choose(alloc, b, sign, &negated, x)?)
}

/// What `x` reads as in two's complement, without its sign.
fn magnitude(alloc: Global, b: &mut Builder, x: &[Lit]) -> Result<Vec<Lit>, NoMemory>
    requires some { 1 ≤ length x.now }
    requires within { AreWithin b.old.vars x.now }
    ensures extends { Extends b.old b.new }
    ensures value { IfOk result (λ v. GivesNumber b.new v.items (length x.now) (λ a. unsigned_abs (signed_of (length x.now) (number a x.now)))) }
{
    with_sign(alloc, b, x[x.len() - 1], x)
}

/// The quotient with a sign: that of the magnitudes, negative where just one of the signs is.
fn signed_quotient(
    alloc: Global,
    b: &mut Builder,
    x: &[Lit],
    y: &[Lit],
) -> Result<Vec<Lit>, NoMemory>
    requires some { 1 ≤ length x.now }
    requires len { length x.now ≡ length y.now }
    requires x_within { AreWithin b.old.vars x.now }
    requires y_within { AreWithin b.old.vars y.now }
    ensures extends { Extends b.old b.new }
    ensures value { IfOk result (λ v. GivesNumber b.new v.items (length x.now) (λ a. div_of true (length x.now) (number a x.now) (number a y.now))) }
{
    let dividend = magnitude(alloc, b, x)?;
    let divisor = magnitude(alloc, b, y)?;
    let quotient = quotient(alloc, b, &dividend, &divisor)?;
    let top = x.len() - 1;
    let sign = b.define::<2>(table!(unequal), [x[top], y[top]])?;
    with_sign(alloc, b, sign, &quotient)
}

/// The remainder with a sign: that of the magnitudes, with the sign of `x`.
fn signed_remainder(
    alloc: Global,
    b: &mut Builder,
    x: &[Lit],
    y: &[Lit],
) -> Result<Vec<Lit>, NoMemory>
    requires some { 1 ≤ length x.now }
    requires len { length x.now ≡ length y.now }
    requires x_within { AreWithin b.old.vars x.now }
    requires y_within { AreWithin b.old.vars y.now }
    ensures extends { Extends b.old b.new }
    ensures value { IfOk result (λ v. GivesNumber b.new v.items (length x.now) (λ a. rem_of true (length x.now) (number a x.now) (number a y.now))) }
{
    let dividend = magnitude(alloc, b, x)?;
    let divisor = magnitude(alloc, b, y)?;
    let remainder = remainder(alloc, b, &dividend, &divisor)?;
    with_sign(alloc, b, x[x.len() - 1], &remainder)
}

/// `x / y`, truncated towards zero, and 0 where `y` is 0 (11.4.3); `signed` says whether both are
/// read with a sign. Both have the same length, which is at least 1 and also that of the quotient.
pub fn div(
    alloc: Global,
    b: &mut Builder,
    x: &[Lit],
    y: &[Lit],
    signed: bool,
) -> Result<Vec<Lit>, NoMemory>
    requires some { 1 ≤ length x.now }
    requires len { length x.now ≡ length y.now }
    requires x_within { AreWithin b.old.vars x.now }
    requires y_within { AreWithin b.old.vars y.now }
    ensures extends { Extends b.old b.new }
    ensures value { IfOk result (λ v. GivesNumber b.new v.items (length x.now) (λ a. div_of signed (length x.now) (number a x.now) (number a y.now))) }
{
    if signed {
        signed_quotient(alloc, b, x, y)
    } else {
        quotient(alloc, b, x, y)
    }
}

/// `x % y`, with the sign of `x`, and 0 where `y` is 0 (11.4.3); `signed` says whether both are
/// read with a sign. Both have the same length, which is at least 1 and also that of the
/// remainder.
pub fn rem(
    alloc: Global,
    b: &mut Builder,
    x: &[Lit],
    y: &[Lit],
    signed: bool,
) -> Result<Vec<Lit>, NoMemory>
    requires some { 1 ≤ length x.now }
    requires len { length x.now ≡ length y.now }
    requires x_within { AreWithin b.old.vars x.now }
    requires y_within { AreWithin b.old.vars y.now }
    ensures extends { Extends b.old b.new }
    ensures value { IfOk result (λ v. GivesNumber b.new v.items (length x.now) (λ a. rem_of signed (length x.now) (number a x.now) (number a y.now))) }
{
    if signed {
        signed_remainder(alloc, b, x, y)
    } else {
        remainder(alloc, b, x, y)
    }
}
