// Expressions as literals (IEEE 1800-2017, 11.6 to 11.8).

ghost use Rattle.std.specs.Prelude.{◌≡◌, ◌≤◌, ◌<◌, ℕ, [], Some, None, slice_index, length, get_or, IfOk};
ghost use Rattle.svr_gate.specs.Circuit.{Extends, Tells, GivesNumber};
ghost use Rattle.svr_typed.specs.ExprTerm.{expr_term};
ghost use Rattle.svr_eval.specs.Typed.{IsTyped};
ghost use Rattle.svr_limits.specs.declared.limit.TheConstants.{LOOP_LIMIT};
ghost use Rattle.svr_eval.specs.Value as spec;
ghost use Rattle.svr_vector.specs.Places.{rows};
ghost use Rattle.svr_inputs.specs.Inputs.{AreInputs, read_at};
ghost use Rattle.svr_inputs.specs.Served.{IsServed};
ghost use Rattle.svr_encode.specs.Parts.{part_term, parts_of};
ghost use Rattle.svr_encode.specs.Given.{AreGiven, inner, part_value};

use crate::given::{Given, value_at};
use crate::leaves::index_at;
use crate::member::inside;
use crate::node::{
    binary, cell, choice, copy, extended, indexed, joined_at, reduced, replicated, selected, unary,
};
use crate::part::{Part, parts_of};
use std::alloc::Global;
use svr_chain::Lit;
use svr_eval::Env;
use svr_gate::Builder;
use svr_inputs::{Inputs, element_at, script_at, size_at};
use svr_typed::{TExpr, TNode};
use svr_vector::{NoMemory, literal_at, test};

/// The value of an expression over the vectors of its parts, at the width and the sign of a context, which is no narrower than the expression.
fn combined_at(
    alloc: Global,
    b: &mut Builder,
    given: &Given<'_>,
    e: &TExpr,
    width: u8,
    signed: bool,
) -> Result<Vec<Lit>, NoMemory>
    requires inputs { AreInputs given.now.inputs.now }
    requires room { given.now.inputs.now.count ≤ b.old.vars }
    requires typed { IsTyped (expr_term e.now) }
    requires ready { IsServed given.now.inputs.now (length given.now.env.now) (expr_term e.now) }
    requires parts { AreGiven b.old given.now 0 (parts_of (λ p. slice_index given.now.inputs.now.sizes.now p) (expr_term e.now) width signed) }
    requires wide { e.now.width ≤ width }
    requires high { width ≤ 64 }
    ensures extends { Extends b.old b.new }
    ensures value { IfOk result (λ ls. GivesNumber b.new ls.items width (λ v. spec.val (read_at given.now.inputs.now v) given.now.env.now (expr_term e.now) width signed)) }
{
    let inputs = given.inputs;
    match &e.node {
        TNode::Number { value, every } => {
            literal_at(alloc, b, *value, *every, e.width, width, signed)
        }
        TNode::Prop(prop) => element_at(alloc, b, inputs, *prop, 0, e.width, width, signed),
        TNode::Element(prop, index) => {
            indexed(alloc, b, given, index.get(), *prop, e.width, width, signed)
        }
        TNode::Cell(prop, inner, first, second) => {
            let (row, column) = (first.get(), second.get());
            cell(
                alloc, b, given, row, column, *prop, *inner, e.width, width, signed,
            )
        }
        TNode::Size(prop, inner) => size_at(alloc, b, inputs, *prop, *inner, width, signed),
        TNode::Script(variable) => {
            script_at(alloc, b, inputs, *variable, e.width, width, signed)
        }
        TNode::Loop(k) => index_at(alloc, b, given.env, *k, width, signed),
        TNode::Reduce(prop, op, body) => {
            reduced(alloc, b, given, body.get(), *prop, *op, width, signed)
        }
        TNode::Of(_, part) => copy(alloc, b, given, part.get(), width, signed),
        TNode::Select {
            base,
            first,
            last,
            low,
        } => {
            let last = match last {
                None => first.get(),
                Some(last) => last.get(),
            };
            selected(
                alloc,
                b,
                given,
                base.get(),
                last,
                *low,
                e.width,
                width,
                signed,
            )
        }
        TNode::Unary { op, arg } => unary(alloc, b, given, arg.get(), *op, width, signed),
        TNode::Binary { op, left, right } => {
            binary(alloc, b, given, left.get(), right.get(), *op, width, signed)
        }
        TNode::Choice { test, yes, no } => {
            choice(
                alloc,
                b,
                given,
                test.get(),
                yes.get(),
                no.get(),
                width,
                signed,
            )
        }
        TNode::Inside { left, set } => {
            inside(alloc, b, given, set.as_slice(), left.get(), width, signed)
        }
        TNode::Join { parts } => joined_at(alloc, b, given, parts.as_slice(), width, signed),
        TNode::Copies { count, parts } => {
            let parts = parts.as_slice();
            replicated(alloc, b, given, parts, count.get(), e.width, width, signed)
        }
        TNode::Sign { arg, .. } => extended(alloc, b, given, arg.get(), width, signed),
    }
}

/// The value of a part: the vector of the earlier part that it is the same as, where there is one.
#[cycle(encode)]
fn part_at(
    alloc: Global,
    b: &mut Builder,
    inputs: &Inputs<'_>,
    env: &Env,
    part: &Part<'_>,
    values: &[Vec<Lit>],
) -> Result<Vec<Lit>, NoMemory>
    requires inputs { AreInputs inputs.now }
    requires room { inputs.now.count ≤ b.old.vars }
    requires typed { IsTyped (expr_term part.now.tree.now) }
    requires ready { IsServed inputs.now (length (inner env.now part.now.index)) (expr_term part.now.tree.now) }
    requires depth { (i : ℕ) → part.now.index ≡ Some i → length env.now < LOOP_LIMIT }
    requires wide { spec.size_of (expr_term part.now.tree.now) ≤ part.now.width }
    requires high { part.now.width ≤ 64 }
    requires repeat { (k : ℕ) → part.now.same ≡ Some k → (k < length (rows values.now)) × GivesNumber b.old (get_or (rows values.now) k []) part.now.width (λ v. part_value (read_at inputs.now v) env.now (part_term part.now)) }
    ensures extends { Extends b.old b.new }
    ensures value { IfOk result (λ ls. GivesNumber b.new ls.items part.now.width (λ v. part_value (read_at inputs.now v) env.now (part_term part.now))) }
{
    match part.same {
        Some(k) => Ok(Vec::from_slice(alloc, value_at(values, k))?),
        None => match part.index {
            None => encode_at(alloc, b, inputs, env, part.tree, part.width, part.signed),
            Some(i) => {
                let deeper = env.inner(i);
                encode_at(
                    alloc,
                    b,
                    inputs,
                    &deeper,
                    part.tree,
                    part.width,
                    part.signed,
                )
            }
        },
    }
}

/// The value at the width and the sign of a context, which is no narrower than the expression.
#[cycle(encode)]
fn encode_at(
    alloc: Global,
    b: &mut Builder,
    inputs: &Inputs<'_>,
    env: &Env,
    e: &TExpr,
    width: u8,
    signed: bool,
) -> Result<Vec<Lit>, NoMemory>
    requires inputs { AreInputs inputs.now }
    requires room { inputs.now.count ≤ b.old.vars }
    requires typed { IsTyped (expr_term e.now) }
    requires ready { IsServed inputs.now (length env.now) (expr_term e.now) }
    requires wide { e.now.width ≤ width }
    requires high { width ≤ 64 }
    ensures extends { Extends b.old b.new }
    ensures value { IfOk result (λ ls. GivesNumber b.new ls.items width (λ v. spec.val (read_at inputs.now v) env.now (expr_term e.now) width signed)) }
{
    let parts = parts_of(alloc, inputs, e, width, signed)?;
    let mut values = Vec::new(alloc);
    for part in &parts {
        let value = part_at(alloc, b, inputs, env, part, &values)?;
        values.push(value)?;
    }
    let given = Given {
        inputs: &*inputs,
        env: &*env,
        values: &values,
    };
    combined_at(alloc, b, &given, e, width, signed)
}

/// A literal that is true where the value of an expression at its own size and sign is not 0, outside of all loops (IEEE 1800-2017, 11.4.7 and 18.5), under the assignment that the bits of the inputs read as. The clauses that are there still hold.
pub fn encode_test(
    alloc: Global,
    b: &mut Builder,
    inputs: &Inputs<'_>,
    e: &TExpr,
) -> Result<Lit, NoMemory>
    requires inputs { AreInputs inputs.now }
    requires room { inputs.now.count ≤ b.old.vars }
    requires typed { IsTyped (expr_term e.now) }
    requires ready { IsServed inputs.now 0 (expr_term e.now) }
    ensures extends { Extends b.old b.new }
    ensures value { IfOk result (λ told. Tells b.new told (λ v. spec.is_set (spec.alone (read_at inputs.now v) [] (expr_term e.now)))) }
{
    let value = encode_at(alloc, b, inputs, &Env::new(), e, e.width, e.signed)?;
    test(b, &value)
}
