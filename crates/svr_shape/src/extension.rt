//! Vectors extended by their sign bit or by zeros.

ghost use Rattle.std.specs.Prelude.{◌≡◌, ◌≤◌, ◌<◌, length, replicate, IfOk};
ghost use Rattle.svr_chain.specs.Clauses.{AreWithin};
ghost use Rattle.svr_gate.specs.Numbers.{number};
ghost use Rattle.svr_gate.specs.Circuit.{Extends, Tells, GivesNumber};
ghost use Rattle.svr_num.specs.Num.{extend_of};
ghost use Rattle.svr_shape.specs.Shape.{fill_of};

use crate::memory::NoMemory;
use std::alloc::Global;
use svr_chain::Lit;
use svr_gate::{Builder, table};

/// The literal that fills: the sign bit of `x`, or one that never holds.
pub(crate) fn filler(b: &mut Builder, x: &[Lit], signed: bool) -> Result<Lit, NoMemory>
    requires some { 1 ≤ length x.now }
    requires within { AreWithin b.old.vars x.now }
    ensures extends { Extends b.old b.new }
    ensures value { IfOk result (λ l. Tells b.new l (λ a. fill_of signed (length x.now) (number a x.now))) }
{
    if signed {
        Ok(x[x.len() - 1])
    } else {
        Ok(b.define::<0>(table!(never), [])?)
    }
}

/// Copies of one literal.
pub(crate) fn repeated(alloc: Global, lit: Lit, count: usize) -> Result<Vec<Lit>, NoMemory>
    ensures { IfOk result (λ v. v.items ≡ replicate count lit) }
{
    Ok(vec![in alloc; lit; count]?)
}

/// `x` in `width` bits, filled with copies of its sign bit or with zeros (11.8.2). `width` is at
/// least the length of `x` and at most 64.
pub fn extend(
    alloc: Global,
    b: &mut Builder,
    x: &[Lit],
    width: u8,
    signed: bool,
) -> Result<Vec<Lit>, NoMemory>
    requires some { 1 ≤ length x.now }
    requires width { length x.now ≤ width }
    requires few { width ≤ 64 }
    requires within { AreWithin b.old.vars x.now }
    ensures extends { Extends b.old b.new }
    ensures value { IfOk result (λ v. GivesNumber b.new v.items width (λ a. extend_of signed width (length x.now) (number a x.now))) }
{
    let fill = filler(b, x, signed)?;
    let filled = repeated(alloc, fill, width as usize - x.len())?;
    let mut extended = Vec::from_slice(alloc, x)?;
    extended.extend_from_slice(&filled)?;
    Ok(extended)
}
