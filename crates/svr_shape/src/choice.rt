//! Choices between vectors.

ghost use Rattle.std.specs.Prelude.{◌≡◌, ◌≤◌, [], ◌∷◌, true, length, IfOk, if◌then◌else◌};
ghost use Rattle.svr_chain.specs.Clauses.{IsWithin, AreWithin};
ghost use Rattle.svr_chain.specs.Valuations.{lit_value};
ghost use Rattle.svr_gate.specs.Numbers.{number};
ghost use Rattle.svr_gate.specs.Gates.{table_value};
ghost use Rattle.svr_gate.specs.Circuit.{Extends, Tells, GivesNumber};

use crate::memory::NoMemory;
use std::alloc::Global;
use svr_chain::Lit;
use svr_gate::{Builder, table};

/// Whether two literals are one.
fn are_same(x: Lit, y: Lit) -> bool
    ensures { result ≡ true → x ≡ y }
{
    x == y
}

/// The literal `x` where `test` holds, else `y`; where both are one literal it is that, and takes no gate.
fn choose_bit(b: &mut Builder, test: Lit, x: Lit, y: Lit) -> Result<Lit, NoMemory>
    requires { AreWithin b.old.vars (test ∷ x ∷ y ∷ []) }
    ensures extends { Extends b.old b.new }
    ensures value { IfOk result (λ l. Tells b.new l (λ a. table_value 0xd8 (number a (test ∷ x ∷ y ∷ [])))) }
{
    if are_same(x, y) {
        return Ok(x);
    }
    Ok(b.define::<3>(table!(choice), [test, x, y])?)
}

/// `x` where `test` holds, else `y` (11.4.11). Both have the same length.
pub fn choose(
    alloc: Global,
    b: &mut Builder,
    test: Lit,
    x: &[Lit],
    y: &[Lit],
) -> Result<Vec<Lit>, NoMemory>
    requires len { length x.now ≡ length y.now }
    requires test_within { IsWithin b.old.vars test }
    requires x_within { AreWithin b.old.vars x.now }
    requires y_within { AreWithin b.old.vars y.now }
    ensures extends { Extends b.old b.new }
    ensures value { IfOk result (λ v. GivesNumber b.new v.items (length x.now) (λ a. if lit_value a test then number a x.now else number a y.now)) }
{
    let mut chosen = Vec::with_capacity(alloc, x.len())?;
    for i in 0..x.len() {
        let bit = choose_bit(b, test, x[i], y[i])?;
        chosen.push_reserved(bit);
    }
    Ok(chosen)
}
