// Operators bit by bit (IEEE 1800-2017, 11.4.8).

ghost use Rattle.std.specs.Prelude.{◌≡◌, length, IfOk};
ghost use Rattle.svr_chain.specs.Clauses.{flip, IsWithin, AreWithin};
ghost use Rattle.svr_chain.specs.Valuations.{lit_value};
ghost use Rattle.svr_gate.specs.Numbers.{number};
ghost use Rattle.svr_gate.specs.Circuit.{Extends, Tells, GivesNumber};
ghost use Rattle.svr_vector.specs.Bitwise as spec;

use crate::memory::NoMemory;
use std::alloc::Global;
use svr_chain::Lit;
use svr_gate::{Builder, table};

/// An operator of two bits.
#[derive(Clone, Copy, PartialEq, Eq)]
pub enum Gate {
    Both,
    Either,
    Unequal,
}

/// The operator of two literals.
pub fn of_bits(b: &mut Builder, op: Gate, p: Lit, q: Lit) -> Result<Lit, NoMemory>
    requires p_within { IsWithin b.old.vars p }
    requires q_within { IsWithin b.old.vars q }
    ensures extends { Extends b.old b.new }
    ensures value { IfOk result (λ l. Tells b.new l (λ a. spec.bit_gate op (lit_value a p) (lit_value a q))) }
{
    match op {
        Gate::Both => Ok(b.define::<2>(table!(both), [p, q])?),
        Gate::Either => Ok(b.define::<2>(table!(either), [p, q])?),
        Gate::Unequal => Ok(b.define::<2>(table!(unequal), [p, q])?),
    }
}

/// The operator of each two bits at one place.
pub(crate) fn bitwise(
    alloc: Global,
    b: &mut Builder,
    op: Gate,
    x: &[Lit],
    y: &[Lit],
) -> Result<Vec<Lit>, NoMemory>
    requires len { length x.now ≡ length y.now }
    requires x_within { AreWithin b.old.vars x.now }
    requires y_within { AreWithin b.old.vars y.now }
    ensures extends { Extends b.old b.new }
    ensures value { IfOk result (λ v. GivesNumber b.new v.items (length x.now) (λ a. spec.number_gate op (number a x.now) (number a y.now))) }
{
    let mut v = Vec::with_capacity(alloc, x.len())?;
    for i in 0..x.len() {
        let bit = of_bits(b, op, x[i], y[i])?;
        v.push_reserved(bit);
    }
    Ok(v)
}
