// Operators over vectors of literals, by how they take their operands.

ghost use Rattle.std.specs.Prelude.{◌≡◌, ◌≤◌, length, IfOk};
ghost use Rattle.svr_chain.specs.Clauses.{IsWithin, AreWithin};
ghost use Rattle.svr_chain.specs.Valuations.{lit_value};
ghost use Rattle.svr_gate.specs.Numbers.{number};
ghost use Rattle.svr_gate.specs.Circuit.{Extends, Tells, GivesNumber};
ghost use Rattle.svr_num.specs.Num.{mul_of, not_of, xor_of};
ghost use Rattle.svr_eval.specs.Value.{is_set};
ghost use Rattle.svr_eval.specs.Operator as spec;
ghost use Rattle.svr_vector.specs.Kinds.{kind_of};

use crate::bitwise::{Gate, bitwise};
use crate::literals::{flipped, numeral};
use crate::memory::NoMemory;
use crate::place::known_number;
use std::alloc::Global;
use svr_arith::{add, div, equal, less, mul, neg, rem, sub};
use svr_chain::Lit;
use svr_eval::{Arithmetic, Change, Comparison, Connective, Reduction, Shift};
use svr_gate::Builder;
use svr_operator::Fold;
use svr_shape::{all, any, odd, shift};

/// Whether the number is not 0.
pub fn test(b: &mut Builder, x: &[Lit]) -> Result<Lit, NoMemory>
    requires { AreWithin b.old.vars x.now }
    ensures extends { Extends b.old b.new }
    ensures value { IfOk result (λ l. Tells b.new l (λ a. is_set (number a x.now))) }
{
    Ok(any(b, x)?)
}

/// The bits in which two vectors agree.
fn agreement(alloc: Global, b: &mut Builder, x: &[Lit], y: &[Lit]) -> Result<Vec<Lit>, NoMemory>
    requires len { length x.now ≡ length y.now }
    requires x_within { AreWithin b.old.vars x.now }
    requires y_within { AreWithin b.old.vars y.now }
    ensures extends { Extends b.old b.new }
    ensures value { IfOk result (λ v. GivesNumber b.new v.items (length x.now) (λ a. not_of (length x.now) (xor_of (number a x.now) (number a y.now)))) }
{
    let unequal = bitwise(alloc, b, Gate::Unequal, x, y)?;
    Ok(flipped(alloc, &unequal)?)
}

/// A product. A known operand stands second, where its bits tell which parts are added at all.
fn product(alloc: Global, b: &mut Builder, x: &[Lit], y: &[Lit]) -> Result<Vec<Lit>, NoMemory>
    requires few { length x.now ≤ 64 }
    requires len { length x.now ≡ length y.now }
    requires x_within { AreWithin b.old.vars x.now }
    requires y_within { AreWithin b.old.vars y.now }
    ensures extends { Extends b.old b.new }
    ensures value { IfOk result (λ v. GivesNumber b.new v.items (length x.now) (λ a. mul_of (length x.now) (number a x.now) (number a y.now))) }
{
    match known_number(b, x) {
        Some(_) => Ok(mul(alloc, b, y, x)?),
        None => Ok(mul(alloc, b, x, y)?),
    }
}

/// An operator whose operands have the width and the sign of the context (11.4.3 and 11.4.8).
pub fn combined(
    alloc: Global,
    b: &mut Builder,
    op: Arithmetic,
    x: &[Lit],
    y: &[Lit],
    signed: bool,
) -> Result<Vec<Lit>, NoMemory>
    requires some { 1 ≤ length x.now }
    requires few { length x.now ≤ 64 }
    requires len { length x.now ≡ length y.now }
    requires x_within { AreWithin b.old.vars x.now }
    requires y_within { AreWithin b.old.vars y.now }
    ensures extends { Extends b.old b.new }
    ensures value { IfOk result (λ v. GivesNumber b.new v.items (length x.now) (λ a. spec.arithmetic_of op (length x.now) signed (number a x.now) (number a y.now))) }
{
    match op {
        Arithmetic::Multiply => product(alloc, b, x, y),
        Arithmetic::Divide => Ok(div(alloc, b, x, y, signed)?),
        Arithmetic::Modulus => Ok(rem(alloc, b, x, y, signed)?),
        Arithmetic::Add => Ok(add(alloc, b, x, y)?),
        Arithmetic::Subtract => Ok(sub(alloc, b, x, y)?),
        Arithmetic::And => bitwise(alloc, b, Gate::Both, x, y),
        Arithmetic::Xor => bitwise(alloc, b, Gate::Unequal, x, y),
        Arithmetic::Xnor => agreement(alloc, b, x, y),
        Arithmetic::Or => bitwise(alloc, b, Gate::Either, x, y),
    }
}

/// The kind of a shift in a signed context or not.
fn kind_of(op: Shift, signed: bool) -> svr_shape::ShiftKind
    ensures { result ≡ kind_of op signed }
{
    match op {
        Shift::Left => svr_shape::ShiftKind::Left,
        Shift::Right => svr_shape::ShiftKind::Right,
        Shift::RightArith => {
            if signed {
                svr_shape::ShiftKind::Signed
            } else {
                svr_shape::ShiftKind::Right
            }
        }
    }
}

/// A shift at the width of `x`, in a signed context or not (11.4.10).
pub fn shifted(
    alloc: Global,
    b: &mut Builder,
    op: Shift,
    x: &[Lit],
    by: &[Lit],
    signed: bool,
) -> Result<Vec<Lit>, NoMemory>
    requires some { 1 ≤ length x.now }
    requires few { length x.now ≤ 64 }
    requires x_within { AreWithin b.old.vars x.now }
    requires by_within { AreWithin b.old.vars by.now }
    ensures extends { Extends b.old b.new }
    ensures value { IfOk result (λ v. GivesNumber b.new v.items (length x.now) (λ a. spec.shift_of op (length x.now) signed (number a x.now) (number a by.now))) }
{
    Ok(shift(alloc, b, kind_of(op, signed), x, by)?)
}

/// A comparison of operands of one width and sign (11.4.4 and 11.4.5).
pub fn compared(
    b: &mut Builder,
    op: Comparison,
    x: &[Lit],
    y: &[Lit],
    signed: bool,
) -> Result<Lit, NoMemory>
    requires some { 1 ≤ length x.now }
    requires len { length x.now ≡ length y.now }
    requires x_within { AreWithin b.old.vars x.now }
    requires y_within { AreWithin b.old.vars y.now }
    ensures extends { Extends b.old b.new }
    ensures value { IfOk result (λ l. Tells b.new l (λ a. spec.comparison_of op (length x.now) signed (number a x.now) (number a y.now))) }
{
    match op {
        Comparison::Less => Ok(less(b, x, y, signed)?),
        Comparison::AtMost => Ok(less(b, y, x, signed)?.flipped()),
        Comparison::Greater => Ok(less(b, y, x, signed)?),
        Comparison::AtLeast => Ok(less(b, x, y, signed)?.flipped()),
        Comparison::Equal => Ok(equal(b, x, y)?),
        Comparison::NotEqual => Ok(equal(b, x, y)?.flipped()),
    }
}

/// A connective of two tests (11.4.7).
pub fn connected(b: &mut Builder, op: Connective, p: Lit, q: Lit) -> Result<Lit, NoMemory>
    requires p_within { IsWithin b.old.vars p }
    requires q_within { IsWithin b.old.vars q }
    ensures extends { Extends b.old b.new }
    ensures value { IfOk result (λ l. Tells b.new l (λ a. spec.connective_of op (lit_value a p) (lit_value a q))) }
{
    match op {
        Connective::And => Ok(b.define::<2>(0x8, [p, q])?),
        Connective::Or => Ok(b.define::<2>(0xe, [p, q])?),
        Connective::Implies => Ok(b.define::<2>(0xd, [p, q])?),
        Connective::Equivalent => Ok(b.define::<2>(0x9, [p, q])?),
    }
}

/// An operator whose operand has the width of the context (11.4.3 and 11.4.8).
pub fn changed(
    alloc: Global,
    b: &mut Builder,
    op: Change,
    x: Vec<Lit>,
) -> Result<Vec<Lit>, NoMemory>
    requires within { AreWithin b.old.vars x.items }
    ensures extends { Extends b.old b.new }
    ensures value { IfOk result (λ v. GivesNumber b.new v.items (length x.items) (λ a. spec.change_of op (length x.items) (number a x.items))) }
{
    match op {
        Change::Plus => Ok(x),
        Change::Minus => Ok(neg(alloc, b, &x)?),
        Change::Not => Ok(flipped(alloc, &x)?),
    }
}

/// A test of all bits of an operand (11.4.7 and 11.4.9).
pub fn reduced(b: &mut Builder, op: Reduction, x: &[Lit]) -> Result<Lit, NoMemory>
    requires within { AreWithin b.old.vars x.now }
    ensures extends { Extends b.old b.new }
    ensures value { IfOk result (λ l. Tells b.new l (λ a. spec.reduction_of op (length x.now) (number a x.now))) }
{
    match op {
        Reduction::And => Ok(all(b, x)?),
        Reduction::Nand => Ok(all(b, x)?.flipped()),
        Reduction::Or => Ok(any(b, x)?),
        Reduction::Nor => Ok(any(b, x)?.flipped()),
        Reduction::Xor => Ok(odd(b, x)?),
        Reduction::Xnor => Ok(odd(b, x)?.flipped()),
    }
}

/// What an array reduction gives where there is no element (7.12.3).
pub fn fold_start(alloc: Global, b: &mut Builder, op: Fold, width: u8) -> Result<Vec<Lit>, NoMemory>
    requires low { 1 ≤ width }
    requires high { width ≤ 64 }
    ensures extends { Extends b.old b.new }
    ensures value { IfOk result (λ v. GivesNumber b.new v.items width (λ _. spec.fold_start op width)) }
{
    let start = svr_eval::fold_start(op, width).value();
    numeral(alloc, b, start, width)
}
