//! Products, by a masked addition for each bit.

ghost use Rattle.std.specs.Prelude.{◌≡◌, length, IfOk, if◌then◌else◌};
ghost use Rattle.svr_chain.specs.Clauses.{IsWithin, AreWithin};
ghost use Rattle.svr_chain.specs.Valuations.{lit_value};
ghost use Rattle.svr_gate.specs.Numbers.{number};
ghost use Rattle.svr_gate.specs.Circuit.{Extends, GivesNumber};
ghost use Rattle.svr_num.specs.Num.{mul_of};

use crate::adder::{add, never, zeros};
use crate::memory::NoMemory;
use std::alloc::Global;
use svr_chain::Lit;
use svr_gate::Builder;
use svr_shape::choose;

/// `x` where `test` holds, else 0.
pub(crate) fn masked(
    alloc: Global,
    b: &mut Builder,
    test: Lit,
    x: &[Lit],
) -> Result<Vec<Lit>, NoMemory>
    requires test_within { IsWithin b.old.vars test }
    requires x_within { AreWithin b.old.vars x.now }
    ensures extends { Extends b.old b.new }
    ensures value { IfOk result (λ v. GivesNumber b.new v.items (length x.now) (λ a. if lit_value a test then number a x.now else 0)) }
{
    let zeros = zeros(alloc, b, x.len())?;
    Ok(choose(alloc, b, test, x, &zeros)?)
}

/// `x * y` (11.4.3). Both have the same length, which is also that of the product.
///
/// The bits of `y` are taken from the highest down: after i of them the product stands in i bits,
/// since its higher ones would be shifted out by the bits to come.
pub fn mul(alloc: Global, b: &mut Builder, x: &[Lit], y: &[Lit]) -> Result<Vec<Lit>, NoMemory>
    requires len { length x.now ≡ length y.now }
    requires x_within { AreWithin b.old.vars x.now }
    requires y_within { AreWithin b.old.vars y.now }
    ensures extends { Extends b.old b.new }
    ensures value { IfOk result (λ v. GivesNumber b.new v.items (length x.now) (λ a. mul_of (length x.now) (number a x.now) (number a y.now))) }
{
    let zero = never(b)?;
    let mut product = Vec::new(alloc);
    for i in 0..x.len() {
        product.insert(0, zero)?;
        let part = masked(alloc, b, y[y.len() - 1 - i], &x[..i + 1])?;
        product = add(alloc, b, &product, &part)?;
    }
    Ok(product)
}
