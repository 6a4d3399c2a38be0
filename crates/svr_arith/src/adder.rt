//! Sums and differences by ripple-carry adders.

ghost use Rattle.std.specs.Prelude.{◌≡◌, ◌-◌, ◌^◌, ◌+◌, length, map, replicate, IfOk, [], ◌∷◌, true, false};
ghost use Rattle.svr_chain.specs.Clauses.{flip, IsWithin, AreWithin};
ghost use Rattle.svr_chain.specs.Valuations.{lit_value};
ghost use Rattle.svr_gate.specs.Numbers.{bit, number};
ghost use Rattle.svr_gate.specs.Circuit.{Extends, Tells, GivesNumber};
ghost use Rattle.svr_num.specs.Num.{add_of, sub_of, neg_of};

use crate::memory::NoMemory;
use std::alloc::Global;
use svr_chain::Lit;
use svr_gate::{Builder, table};

/// A literal that never holds.
pub(crate) fn never(b: &mut Builder) -> Result<Lit, NoMemory>
    ensures extends { Extends b.old b.new }
    ensures value { IfOk result (λ l. Tells b.new l (λ _. false)) }
{
    Ok(b.define::<0>(table!(never), [])?)
}

/// Copies of one literal.
fn repeated(alloc: Global, lit: Lit, count: usize) -> Result<Vec<Lit>, NoMemory>
    ensures { IfOk result (λ v. v.items ≡ replicate count lit) }
{
    Ok(vec![in alloc; lit; count]?)
}

/// Literals that never hold.
pub(crate) fn zeros(alloc: Global, b: &mut Builder, count: usize) -> Result<Vec<Lit>, NoMemory>
    ensures extends { Extends b.old b.new }
    ensures value { IfOk result (λ v. GivesNumber b.new v.items count (λ _. 0)) }
{
    let zero = never(b)?;
    repeated(alloc, zero, count)
}

/// The sum of three bits, its low bit first.
fn full_add(b: &mut Builder, p: Lit, q: Lit, r: Lit) -> Result<(Lit, Lit), NoMemory>
    requires { AreWithin b.old.vars (p ∷ q ∷ r ∷ []) }
    ensures extends { Extends b.old b.new }
    ensures value { IfOk result (λ s. GivesNumber b.new (s.0 ∷ s.1 ∷ []) 2 (λ a. bit (lit_value a p) + bit (lit_value a q) + bit (lit_value a r))) }
{
    let sum = b.define::<3>(table!(sum), [p, q, r])?;
    let carry = b.define::<3>(table!(carry), [p, q, r])?;
    Ok((sum, carry))
}

/// The sum of two vectors of one length and of a bit, with its carry as the last literal.
fn long_sum(
    alloc: Global,
    b: &mut Builder,
    x: &[Lit],
    y: &[Lit],
    carry_in: Lit,
) -> Result<Vec<Lit>, NoMemory>
    requires len { length x.now ≡ length y.now }
    requires x_within { AreWithin b.old.vars x.now }
    requires y_within { AreWithin b.old.vars y.now }
    requires carry_within { IsWithin b.old.vars carry_in }
    ensures extends { Extends b.old b.new }
    ensures value { IfOk result (λ v. GivesNumber b.new v.items (length x.now + 1) (λ a. number a x.now + number a y.now + bit (lit_value a carry_in))) }
{
    let mut sum = Vec::with_capacity(alloc, x.len() + 1)?;
    let mut carry = carry_in;
    for i in 0..x.len() {
        let (low, high) = full_add(b, x[i], y[i], carry)?;
        sum.push_reserved(low);
        carry = high;
    }
    sum.push_reserved(carry);
    Ok(sum)
}

/// `x + y` (11.4.3). Both have the same length, which is also that of the sum.
pub fn add(alloc: Global, b: &mut Builder, x: &[Lit], y: &[Lit]) -> Result<Vec<Lit>, NoMemory>
    requires len { length x.now ≡ length y.now }
    requires x_within { AreWithin b.old.vars x.now }
    requires y_within { AreWithin b.old.vars y.now }
    ensures extends { Extends b.old b.new }
    ensures value { IfOk result (λ v. GivesNumber b.new v.items (length x.now) (λ a. add_of (length x.now) (number a x.now) (number a y.now))) }
{
    let zero = never(b)?;
    let mut sum = long_sum(alloc, b, x, y, zero)?;
    sum.truncate(x.len());
    Ok(sum)
}

/// Each literal with the other sign.
fn complement(alloc: Global, x: &[Lit]) -> Result<Vec<Lit>, NoMemory>
    ensures { IfOk result (λ v. v.items ≡ map flip x.now) }
{
    Ok(x.iter().map(|lit| lit.flipped()).collect(alloc)?)
}

/// `x - y` and 2 to their length more: the last literal holds where there is no borrow.
pub(crate) fn difference(
    alloc: Global,
    b: &mut Builder,
    x: &[Lit],
    y: &[Lit],
) -> Result<Vec<Lit>, NoMemory>
    requires len { length x.now ≡ length y.now }
    requires x_within { AreWithin b.old.vars x.now }
    requires y_within { AreWithin b.old.vars y.now }
    ensures extends { Extends b.old b.new }
    ensures value { IfOk result (λ v. GivesNumber b.new v.items (length x.now + 1) (λ a. number a x.now + (2 ^ length x.now - number a y.now))) }
{
    let zero = never(b)?;
    let complement = complement(alloc, y)?;
    long_sum(alloc, b, x, &complement, zero.flipped())
}

/// `x - y` (11.4.3). Both have the same length, which is also that of the difference.
pub fn sub(alloc: Global, b: &mut Builder, x: &[Lit], y: &[Lit]) -> Result<Vec<Lit>, NoMemory>
    requires len { length x.now ≡ length y.now }
    requires x_within { AreWithin b.old.vars x.now }
    requires y_within { AreWithin b.old.vars y.now }
    ensures extends { Extends b.old b.new }
    ensures value { IfOk result (λ v. GivesNumber b.new v.items (length x.now) (λ a. sub_of (length x.now) (number a x.now) (number a y.now))) }
{
    let mut difference = difference(alloc, b, x, y)?;
    difference.truncate(x.len());
    Ok(difference)
}

/// `-x` (11.4.3), in the length of `x`.
pub fn neg(alloc: Global, b: &mut Builder, x: &[Lit]) -> Result<Vec<Lit>, NoMemory>
    requires { AreWithin b.old.vars x.now }
    ensures extends { Extends b.old b.new }
    ensures value { IfOk result (λ v. GivesNumber b.new v.items (length x.now) (λ a. neg_of (length x.now) (number a x.now))) }
{
    let zeros = zeros(alloc, b, x.len())?;
    sub(alloc, b, &zeros, x)
}
