//! Shifts by an amount that is a vector too.

ghost use Rattle.std.specs.Prelude.{◌≡◌, ◌≤◌, length, IfOk};
ghost use Rattle.svr_chain.specs.Clauses.{AreWithin};
ghost use Rattle.svr_gate.specs.Numbers.{number};
ghost use Rattle.svr_gate.specs.Circuit.{Extends, GivesNumber};
ghost use Rattle.svr_shape.specs.Shape.{shift_of, is_signed, moved_of};

use crate::choice::choose;
use crate::extension::{filler, repeated};
use crate::kind::ShiftKind;
use crate::memory::NoMemory;
use crate::reduction::any;
use std::alloc::Global;
use svr_chain::Lit;
use svr_gate::Builder;

/// How many bits of an amount are looked at one by one: 2 to this power is the greatest width.
const STAGES: usize = 6;

/// Whether the sign bit fills.
fn is_signed(kind: ShiftKind) -> bool
    ensures { result ≡ is_signed kind }
{
    matches!(kind, ShiftKind::Signed)
}

/// The vector moved by a fixed number of places.
fn moved(
    alloc: Global,
    kind: ShiftKind,
    x: &[Lit],
    fill: Lit,
    places: usize,
) -> Result<Vec<Lit>, NoMemory>
    requires { places ≤ length x.now }
    ensures { IfOk result (λ v. v.items ≡ moved_of kind fill places x.now) }
{
    let filled = repeated(alloc, fill, places)?;
    let (low, high) = match kind {
        ShiftKind::Left => (&filled[..], &x[..x.len() - places]),
        ShiftKind::Right | ShiftKind::Signed => (&x[places..], &filled[..]),
    };
    let mut moved = Vec::from_slice(alloc, low)?;
    moved.extend_from_slice(high)?;
    Ok(moved)
}

/// `x` shifted by `by` (11.4.10), in the length of `x`; an amount of that length or more leaves
/// only what the shift fills with.
pub fn shift(
    alloc: Global,
    b: &mut Builder,
    kind: ShiftKind,
    x: &[Lit],
    by: &[Lit],
) -> Result<Vec<Lit>, NoMemory>
    requires some { 1 ≤ length x.now }
    requires few { length x.now ≤ 64 }
    requires x_within { AreWithin b.old.vars x.now }
    requires by_within { AreWithin b.old.vars by.now }
    ensures extends { Extends b.old b.new }
    ensures value { IfOk result (λ v. GivesNumber b.new v.items (length x.now) (λ a. shift_of kind (length x.now) (number a x.now) (number a by.now))) }
{
    let fill = filler(b, x, is_signed(kind))?;
    let stages = by.len().min(STAGES);
    let mut shifted = Vec::from_slice(alloc, x)?;
    for i in 0..stages {
        let places = shifted.len().min(1 << i);
        let moved = moved(alloc, kind, &shifted, fill, places)?;
        shifted = choose(alloc, b, by[i], &moved, &shifted)?;
    }
    let far = any(b, &by[stages..])?;
    let filled = repeated(alloc, fill, x.len())?;
    choose(alloc, b, far, &filled, &shifted)
}
