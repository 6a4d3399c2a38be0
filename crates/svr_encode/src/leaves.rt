// Nodes over operands that are vectors already.

ghost use Rattle.std.specs.Prelude.{◌≡◌, ◌≤◌, ◌<◌, ◌*◌, ◌/◌, ◌-ℤ◌, ◌&&◌, max, length, not, IfOk, if◌then◌else◌};
ghost use Rattle.svr_chain.specs.Clauses.{AreWithin};
ghost use Rattle.svr_gate.specs.Numbers.{number};
ghost use Rattle.svr_gate.specs.Circuit.{Extends, Tells, GivesNumber};
ghost use Rattle.svr_num.specs.Num.{extend_of, less_of, read_of};
ghost use Rattle.svr_typed.specs.ExprTerm.{expr_term};
ghost use Rattle.svr_eval.specs.Typed.{IsTyped};
ghost use Rattle.svr_eval.specs.Operator as kind;
ghost use Rattle.svr_eval.specs.Value as spec;

use std::alloc::Global;
use svr_arith::less;
use svr_chain::Lit;
use svr_eval::{Comparison, Connective, Env, Reduction};
use svr_gate::Builder;
use svr_shape::{choose, extend};
use svr_typed::{TExpr, TNode};
use svr_vector::{
    NoMemory, bits_from, compared, connected, constant_at, copied, reduced, test, truth_at,
};

/// The property that the expression as a whole is.
pub(crate) fn property(e: &TExpr) -> Option<u32>
    ensures { result ≡ spec.property_of (expr_term e.now) }
{
    match &e.node {
        TNode::Prop(prop) => Some(*prop),
        TNode::Number { .. }
        | TNode::Element(..)
        | TNode::Cell(..)
        | TNode::Size(..)
        | TNode::Script(_)
        | TNode::Loop(_)
        | TNode::Reduce(..)
        | TNode::Of(..)
        | TNode::Select { .. }
        | TNode::Unary { .. }
        | TNode::Binary { .. }
        | TNode::Choice { .. }
        | TNode::Inside { .. }
        | TNode::Join { .. }
        | TNode::Copies { .. }
        | TNode::Sign { .. } => None,
    }
}

/// The width that two operands have in common (11.8.2): the greater one.
pub(crate) fn common_width(x: &TExpr, y: &TExpr) -> u8
    requires x_typed { IsTyped (expr_term x.now) }
    requires y_typed { IsTyped (expr_term y.now) }
    ensures { result ≡ max (spec.size_of (expr_term x.now)) (spec.size_of (expr_term y.now)) }
{
    x.width.max(y.width)
}

/// Whether two operands are both signed (11.8.1).
pub(crate) fn are_signed(x: &TExpr, y: &TExpr) -> bool
    requires x_typed { IsTyped (expr_term x.now) }
    requires y_typed { IsTyped (expr_term y.now) }
    ensures { result ≡ (spec.sign_of (expr_term x.now) && spec.sign_of (expr_term y.now)) }
{
    x.signed && y.signed
}

/// The index of a loop, at the width and the sign of a context.
pub(crate) fn index_at(
    alloc: Global,
    b: &mut Builder,
    env: &Env,
    k: u32,
    width: u8,
    signed: bool,
) -> Result<Vec<Lit>, NoMemory>
    requires depth { k < length env.now }
    requires wide { 32 ≤ width }
    requires high { width ≤ 64 }
    ensures extends { Extends b.old b.new }
    ensures value { IfOk result (λ ls. GivesNumber b.new ls.items width (λ _. extend_of signed width 32 (spec.index_of env.now k))) }
{
    constant_at(alloc, b, u64::from(env.loop_index(k)), 32, width, signed)
}

/// `own` bits of a vector from the bit on that an index names, at the width and the sign of a context (11.5.1).
pub(crate) fn selected_bits(
    alloc: Global,
    b: &mut Builder,
    whole: &[Lit],
    index: &[Lit],
    index_signed: bool,
    low: i64,
    own: u8,
    width: u8,
    signed: bool,
) -> Result<Vec<Lit>, NoMemory>
    requires index_some { 1 ≤ length index.now }
    requires index_few { length index.now ≤ 64 }
    requires long { length whole.now ≤ 64 }
    requires index_within { AreWithin b.old.vars index.now }
    requires within { AreWithin b.old.vars whole.now }
    requires some { 1 ≤ own }
    requires wide { own ≤ width }
    requires high { width ≤ 64 }
    ensures extends { Extends b.old b.new }
    ensures value { IfOk result (λ ls. GivesNumber b.new ls.items width (λ v. extend_of signed width own (spec.bits_from (read_of index_signed (length index.now) (number v index.now) -ℤ low) own (number v whole.now)))) }
{
    let bits = bits_from(alloc, b, whole, index, index_signed, low, own)?;
    Ok(extend(alloc, b, &bits, width, signed)?)
}

/// A test of all bits, at the width and the sign of a context.
pub(crate) fn reduced_truth(
    alloc: Global,
    b: &mut Builder,
    op: Reduction,
    x: &[Lit],
    width: u8,
    signed: bool,
) -> Result<Vec<Lit>, NoMemory>
    requires within { AreWithin b.old.vars x.now }
    requires low { 1 ≤ width }
    requires high { width ≤ 64 }
    ensures extends { Extends b.old b.new }
    ensures value { IfOk result (λ ls. GivesNumber b.new ls.items width (λ v. spec.truth width signed (kind.reduction_of op (length x.now) (number v x.now)))) }
{
    let told = reduced(b, op, x)?;
    truth_at(alloc, b, told, width, signed)
}

/// A comparison of operands of one width and sign, at the width and the sign of a context.
pub(crate) fn compared_truth(
    alloc: Global,
    b: &mut Builder,
    op: Comparison,
    x: &[Lit],
    y: &[Lit],
    both: bool,
    width: u8,
    signed: bool,
) -> Result<Vec<Lit>, NoMemory>
    requires some { 1 ≤ length x.now }
    requires len { length x.now ≡ length y.now }
    requires x_within { AreWithin b.old.vars x.now }
    requires y_within { AreWithin b.old.vars y.now }
    requires low { 1 ≤ width }
    requires high { width ≤ 64 }
    ensures extends { Extends b.old b.new }
    ensures value { IfOk result (λ ls. GivesNumber b.new ls.items width (λ v. spec.truth width signed (kind.comparison_of op (length x.now) both (number v x.now) (number v y.now)))) }
{
    let told = compared(b, op, x, y, both)?;
    truth_at(alloc, b, told, width, signed)
}

/// A connective of the tests of two values, at the width and the sign of a context.
pub(crate) fn connected_truth(
    alloc: Global,
    b: &mut Builder,
    op: Connective,
    x: &[Lit],
    y: &[Lit],
    width: u8,
    signed: bool,
) -> Result<Vec<Lit>, NoMemory>
    requires x_within { AreWithin b.old.vars x.now }
    requires y_within { AreWithin b.old.vars y.now }
    requires low { 1 ≤ width }
    requires high { width ≤ 64 }
    ensures extends { Extends b.old b.new }
    ensures value { IfOk result (λ ls. GivesNumber b.new ls.items width (λ v. spec.truth width signed (kind.connective_of op (spec.is_set (number v x.now)) (spec.is_set (number v y.now))))) }
{
    let p = test(b, x)?;
    let q = test(b, y)?;
    let told = connected(b, op, p, q)?;
    truth_at(alloc, b, told, width, signed)
}

/// The one value where the number that is tested is not 0, else the other.
pub(crate) fn chosen_by(
    alloc: Global,
    b: &mut Builder,
    tested: &[Lit],
    x: &[Lit],
    y: &[Lit],
) -> Result<Vec<Lit>, NoMemory>
    requires tested_within { AreWithin b.old.vars tested.now }
    requires len { length x.now ≡ length y.now }
    requires x_within { AreWithin b.old.vars x.now }
    requires y_within { AreWithin b.old.vars y.now }
    ensures extends { Extends b.old b.new }
    ensures value { IfOk result (λ ls. GivesNumber b.new ls.items (length x.now) (λ v. if spec.is_set (number v tested.now) then number v x.now else number v y.now)) }
{
    let is_set = test(b, tested)?;
    Ok(choose(alloc, b, is_set, x, y)?)
}

/// As many copies of a vector as have `own` bits, at the width and the sign of a context.
pub(crate) fn copies_at(
    alloc: Global,
    b: &mut Builder,
    part: &[Lit],
    own: u8,
    width: u8,
    signed: bool,
) -> Result<Vec<Lit>, NoMemory>
    requires part { 1 ≤ length part.now }
    requires within { AreWithin b.old.vars part.now }
    requires whole { own / length part.now * length part.now ≡ own }
    requires some { 1 ≤ own }
    requires wide { own ≤ width }
    requires high { width ≤ 64 }
    ensures extends { Extends b.old b.new }
    ensures value { IfOk result (λ ls. GivesNumber b.new ls.items width (λ v. extend_of signed width own (spec.copied (own / length part.now) (length part.now) (number v part.now)))) }
{
    let whole = copied(alloc, part, own as usize / part.len())?;
    Ok(extend(alloc, b, &whole, width, signed)?)
}

/// Whether `x >= y`.
pub(crate) fn is_no_less(
    b: &mut Builder,
    x: &[Lit],
    y: &[Lit],
    signed: bool,
) -> Result<Lit, NoMemory>
    requires some { 1 ≤ length x.now }
    requires len { length x.now ≡ length y.now }
    requires x_within { AreWithin b.old.vars x.now }
    requires y_within { AreWithin b.old.vars y.now }
    ensures extends { Extends b.old b.new }
    ensures value { IfOk result (λ told. Tells b.new told (λ v. not (less_of signed (length x.now) (number v x.now) (number v y.now)))) }
{
    let is_less = less(b, x, y, signed)?;
    Ok(is_less.flipped())
}
