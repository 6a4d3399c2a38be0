//! Comparisons, at one gate a bit.

ghost use Rattle.std.specs.Prelude.{◌≡◌, ◌==◌, ◌≤◌, length, nat_lt, IfOk, [], ◌∷◌};
ghost use Rattle.svr_chain.specs.Clauses.{AreWithin};
ghost use Rattle.svr_chain.specs.Valuations.{lit_value};
ghost use Rattle.svr_gate.specs.Numbers.{number};
ghost use Rattle.svr_gate.specs.Circuit.{Extends, Tells};
ghost use Rattle.svr_num.specs.Num.{less_of};
ghost use Rattle.svr_arith.specs.Order.{is_below};

use crate::adder::never;
use crate::memory::NoMemory;
use svr_chain::Lit;
use svr_gate::{Builder, table};

/// Whether the bit `p` is below the bit `q`, or equals it and `low` holds of the bits below.
fn bit_below(b: &mut Builder, p: Lit, q: Lit, low: Lit) -> Result<Lit, NoMemory>
    requires { AreWithin b.old.vars (p ∷ q ∷ low ∷ []) }
    ensures extends { Extends b.old b.new }
    ensures value { IfOk result (λ l. Tells b.new l (λ a. is_below (lit_value a p) (lit_value a q) (lit_value a low))) }
{
    Ok(b.define::<3>(table!(carry), [p.flipped(), q, low])?)
}

/// Whether `x` is below `y`, both read without a sign.
fn below(b: &mut Builder, x: &[Lit], y: &[Lit]) -> Result<Lit, NoMemory>
    requires len { length x.now ≡ length y.now }
    requires x_within { AreWithin b.old.vars x.now }
    requires y_within { AreWithin b.old.vars y.now }
    ensures extends { Extends b.old b.new }
    ensures value { IfOk result (λ l. Tells b.new l (λ a. nat_lt (number a x.now) (number a y.now))) }
{
    let mut below = never(b)?;
    for i in 0..x.len() {
        below = bit_below(b, x[i], y[i], below)?;
    }
    Ok(below)
}

/// Whether `x < y` (11.4.4), both read with a sign or both without one. Both have the same
/// length, which is at least 1.
pub fn less(b: &mut Builder, x: &[Lit], y: &[Lit], signed: bool) -> Result<Lit, NoMemory>
    requires some { 1 ≤ length x.now }
    requires len { length x.now ≡ length y.now }
    requires x_within { AreWithin b.old.vars x.now }
    requires y_within { AreWithin b.old.vars y.now }
    ensures extends { Extends b.old b.new }
    ensures value { IfOk result (λ l. Tells b.new l (λ a. less_of signed (length x.now) (number a x.now) (number a y.now))) }
{
    let top = x.len() - 1;
    let low = below(b, &x[..top], &y[..top])?;
    if signed {
        bit_below(b, y[top], x[top], low)
    } else {
        bit_below(b, x[top], y[top], low)
    }
}

/// Whether `x == y` (11.4.5). Both have the same length.
pub fn equal(b: &mut Builder, x: &[Lit], y: &[Lit]) -> Result<Lit, NoMemory>
    requires len { length x.now ≡ length y.now }
    requires x_within { AreWithin b.old.vars x.now }
    requires y_within { AreWithin b.old.vars y.now }
    ensures extends { Extends b.old b.new }
    ensures value { IfOk result (λ l. Tells b.new l (λ a. number a x.now == number a y.now)) }
{
    let mut equal = b.define::<0>(table!(always), [])?;
    for i in 0..x.len() {
        equal = b.define::<3>(table!(agree), [equal, x[i], y[i]])?;
    }
    Ok(equal)
}
