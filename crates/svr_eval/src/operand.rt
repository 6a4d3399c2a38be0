// Members of `unique`: what they stand for, and whether two of them are equal (IEEE 1800-2017, 18.5.5).

ghost use Rattle.std.specs.Prelude.{◌≡◌, ◌≤◌, ◌<◌, ◌-◌, ◌^◌, ℕ, length};
ghost use Rattle.std.specs.List.{list_any};
ghost use Rattle.svr_typed.specs.ExprTerm.{expr_term, expr_terms};
ghost use Rattle.svr_eval.specs.Reading.{reading_of};
ghost use Rattle.svr_eval.specs.Typed.{IsTyped, AreTyped, CanRead, AllCanRead};
ghost use Rattle.svr_eval.specs.Value as spec;
ghost use Rattle.svr_eval.specs.Value.{property_of, operand_of};
ghost use Rattle.svr_eval.specs.Holds.{elements_from, member_operands, operands};
ghost use Rattle.svr_eval.specs.Holds as truth;
ghost use Rattle.svr_eval.specs.Operands.{seen, CanTake, are_apart, members_are_apart};

use crate::assign::Assign;
use crate::env::Env;
use crate::expr::{property, value_at};
use crate::parts::bits;
use svr_num::Bits;
use svr_typed::TExpr;

/// An expression, or an element of an array property.
#[derive(Clone, Copy)]
pub(crate) enum Operand<'a> {
    Whole(&'a TExpr),
    Element {
        prop: u32,
        at: u32,
        width: u8,
        signed: bool,
    },
}

fn width_of(x: Operand<'_>, a: &Assign, env: &Env) -> u8
    requires { CanTake (reading_of a.now) (length env.now) x }
    ensures value { result ≡ (seen (reading_of a.now) env.now x.entry).size }
    ensures high { result ≤ 64 }
{
    match x {
        Operand::Whole(e) => e.width,
        Operand::Element { width, .. } => width,
    }
}

fn sign_of(x: Operand<'_>, a: &Assign, env: &Env) -> bool
    requires { CanTake (reading_of a.now) (length env.now) x }
    ensures { result ≡ (seen (reading_of a.now) env.now x.entry).sign }
{
    match x {
        Operand::Whole(e) => e.signed,
        Operand::Element { signed, .. } => signed,
    }
}

fn number_of(x: Operand<'_>, width: u8, signed: bool, a: &Assign, env: &Env) -> Bits
    requires reads { CanTake (reading_of a.now) (length env.now) x }
    requires wide { (seen (reading_of a.now) env.now x).size ≤ width }
    requires high { width ≤ 64 }
    ensures { result.value ≡ (seen (reading_of a.now) env.now x.entry).value width signed }
{
    match x {
        Operand::Whole(e) => value_at(e, width, signed, a, env),
        Operand::Element {
            prop,
            at,
            width: own,
            ..
        } => bits(a.element(prop, u64::from(at)), own).extend(width, signed),
    }
}

fn are_equal(x: Operand<'_>, y: Operand<'_>, a: &Assign, env: &Env) -> bool
    requires left { CanTake (reading_of a.now) (length env.now) x }
    requires right { CanTake (reading_of a.now) (length env.now) y }
    ensures { result ≡ spec.are_equal (seen (reading_of a.now) env.now x.entry) (seen (reading_of a.now) env.now y.entry) }
{
    let width = width_of(x, a, env).max(width_of(y, a, env));
    let signed = sign_of(x, a, env) && sign_of(y, a, env);
    number_of(x, width, signed, a, env).value() == number_of(y, width, signed, a, env).value()
}

/// Whether `x` is equal to an element of an array from the place `from` on.
#[tactic(auto, using(crate::proofs::Operands::next_element))]
fn is_among_elements(
    x: Operand<'_>,
    prop: u32,
    from: u32,
    width: u8,
    signed: bool,
    a: &Assign,
    env: &Env,
) -> bool
    requires left { CanTake (reading_of a.now) (length env.now) x }
    requires low { 1 ≤ width }
    requires high { width ≤ 64 }
    requires fits { (i : ℕ) → (reading_of a.now).element prop i < 2 ^ width }
    requires within { from ≤ (reading_of a.now).size prop }
    ensures { result ≡ list_any (spec.are_equal (seen (reading_of a.now) env.now x.entry))
        (elements_from (reading_of a.now) prop width signed from ((reading_of a.now).size prop - from)) }
{
    for at in from..a.size(prop) {
        let element = Operand::Element {
            prop,
            at,
            width,
            signed,
        };
        if are_equal(x, element, a, env) {
            return true;
        }
    }
    false
}

/// Whether `x` is equal to the member, or to an element of it where it is an array.
fn is_member(x: Operand<'_>, member: &TExpr, a: &Assign, env: &Env) -> bool
    requires left { CanTake (reading_of a.now) (length env.now) x }
    requires typed { IsTyped (expr_term member.now) }
    requires reads { CanRead (reading_of a.now) (length env.now) (expr_term member.now) }
    ensures { result ≡ list_any (spec.are_equal (seen (reading_of a.now) env.now x.entry))
        (member_operands (reading_of a.now) (property_of (expr_term member.now)) (operand_of (reading_of a.now) env.now (expr_term member.now))) }
{
    match property(member) {
        Some(prop) => is_among_elements(x, prop, 0, member.width, member.signed, a, env),
        None => are_equal(x, Operand::Whole(member), a, env),
    }
}

#[tactic(auto, using(crate::proofs::Operands::any_append))]
fn is_among(x: Operand<'_>, members: &[TExpr], a: &Assign, env: &Env) -> bool
    requires left { CanTake (reading_of a.now) (length env.now) x }
    requires typed { AreTyped (expr_terms members.now) }
    requires reads { AllCanRead (reading_of a.now) (length env.now) (expr_terms members.now) }
    ensures { result ≡ list_any (spec.are_equal (seen (reading_of a.now) env.now x.entry)) (operands (reading_of a.now) env.now (expr_terms members.now)) }
{
    for member in members {
        if is_member(x, member, a, env) {
            return true;
        }
    }
    false
}

/// Whether the elements of an array are pairwise different, and different from all members.
#[tactic(auto, using(crate::proofs::Operands::next_element))]
fn elements_are_apart(
    prop: u32,
    width: u8,
    signed: bool,
    members: &[TExpr],
    a: &Assign,
    env: &Env,
) -> bool
    requires low { 1 ≤ width }
    requires high { width ≤ 64 }
    requires fits { (i : ℕ) → (reading_of a.now).element prop i < 2 ^ width }
    requires typed { AreTyped (expr_terms members.now) }
    requires reads { AllCanRead (reading_of a.now) (length env.now) (expr_terms members.now) }
    ensures { result ≡ are_apart (elements_from (reading_of a.now) prop width signed 0 ((reading_of a.now).size prop))
        (operands (reading_of a.now) env.now (expr_terms members.now)) }
{
    for at in 0..a.size(prop) {
        let x = Operand::Element {
            prop,
            at,
            width,
            signed,
        };
        if is_among_elements(x, prop, at + 1, width, signed, a, env)
            || is_among(x, members, a, env)
        {
            return false;
        }
    }
    true
}

/// Whether what the first member stands for is pairwise different, and different from what the others stand for.
fn is_apart(first: &TExpr, others: &[TExpr], a: &Assign, env: &Env) -> bool
    requires typed { IsTyped (expr_term first.now) }
    requires reads { CanRead (reading_of a.now) (length env.now) (expr_term first.now) }
    requires others_typed { AreTyped (expr_terms others.now) }
    requires others_read { AllCanRead (reading_of a.now) (length env.now) (expr_terms others.now) }
    ensures { result ≡ are_apart (member_operands (reading_of a.now) (property_of (expr_term first.now)) (operand_of (reading_of a.now) env.now (expr_term first.now)))
        (operands (reading_of a.now) env.now (expr_terms others.now)) }
{
    match property(first) {
        Some(prop) => elements_are_apart(prop, first.width, first.signed, others, a, env),
        None => !is_among(Operand::Whole(first), others, a, env),
    }
}

/// Whether each member is apart from those behind it.
fn each_is_apart(members: &[TExpr], a: &Assign, env: &Env) -> bool
    requires typed { AreTyped (expr_terms members.now) }
    requires reads { AllCanRead (reading_of a.now) (length env.now) (expr_terms members.now) }
    ensures { result ≡ members_are_apart (reading_of a.now) env.now (expr_terms members.now) }
{
    let mut left = members;
    while let [first, others @ ..] = left {
        if !is_apart(first, others, a, env) {
            return false;
        }
        left = others;
    }
    true
}

/// Whether no two of the members are equal, arrays standing for their elements.
#[tactic(auto, using(crate::proofs::Operands::each_is_apart_is))]
pub(crate) fn are_distinct(members: &[TExpr], a: &Assign, env: &Env) -> bool
    requires typed { AreTyped (expr_terms members.now) }
    requires reads { AllCanRead (reading_of a.now) (length env.now) (expr_terms members.now) }
    ensures { result ≡ truth.are_distinct (operands (reading_of a.now) env.now (expr_terms members.now)) }
{
    each_is_apart(members, a, env)
}
