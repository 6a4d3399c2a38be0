// The members of `unique`, two by two (IEEE 1800-2017, 18.5.5).

ghost use Rattle.std.specs.Prelude.{◌≡◌, ◌++◌, ℕ, false, OnOk, IfOk, length, map};
ghost use Rattle.svr_typed.specs.ExprTerm.{expr_term, expr_terms};
ghost use Rattle.svr_eval.specs.Reading.{Reading, reading_of};
ghost use Rattle.svr_eval.specs.Value.{property_of};
ghost use Rattle.svr_frame.specs.Closed as closing;
ghost use Rattle.svr_frame.specs.Occurrences as spec;
ghost use Rattle.svr_frame.specs.Reads.{of_element, of_size};
ghost use Rattle.svr_mention.specs.Mentioned.{mention_in, reads_in, shape_in};
ghost use Rattle.svr_expand.specs.Expanded.{guards_of, over_of, place_of, guards_read_in, GuardsAreReady, findings, found_at, found_of, ExprIsReady, ExprsAreReady};
ghost use Rattle.svr_expand.specs.Operands.{operand_expr, operand_exprs, MemberIsReady, AllReady};

use crate::around::Around;
use crate::finding::Finding;
use crate::guards::binary;
use crate::held::beside;
use crate::walk::{add_guard_mentions, add_loop_mentions, add_occurrence, is_counted};
use sqlite_items::Items;
use std::alloc::Global;
use svr_closed::{closed, index_number};
use svr_eval::Env;
use svr_frame::size_at;
use svr_mention::{Mention, Setting, add_mentions, element_mention};
use svr_operator::BinOp;
use svr_typed::{NoMemory, TExpr, TNode};

/// A member of a `unique` list: an expression, or an element of an array (IEEE 1800-2017, 18.5.5).
#[derive(Clone, Copy)]
pub(crate) enum UniqueMember<'a> {
    Whole(&'a TExpr),
    Element {
        prop: u32,
        at: u32,
        width: u8,
        signed: bool,
    },
}

/// The operand as a closed expression.
fn closed_operand(alloc: Global, x: &UniqueMember<'_>, env: &Env) -> Result<TExpr, NoMemory>
    ensures { IfOk result (λ r. expr_term r ≡ closing.closed env.now (operand_expr x.now)) }
{
    match x {
        UniqueMember::Whole(e) => closed(alloc, e, env),
        UniqueMember::Element {
            prop,
            at,
            width,
            signed,
        } => {
            let node = TNode::element(alloc, *prop, index_number(*at))?;
            Ok(TExpr::new(*width, *signed, node))
        }
    }
}

/// `x != y`, closed.
fn unequal(
    alloc: Global,
    x: &UniqueMember<'_>,
    y: &UniqueMember<'_>,
    env: &Env,
) -> Result<TExpr, NoMemory>
    ensures { IfOk result (λ r. expr_term r ≡ closing.closed env.now (spec.unequal (operand_expr x.now) (operand_expr y.now))) }
{
    let left = closed_operand(alloc, x, env);
    let right = closed_operand(alloc, y, env);
    match left.ok().zip(right.ok()) {
        None => Err(NoMemory),
        Some((left, right)) => binary(alloc, BinOp::NotEqual, left, right),
    }
}

/// The mention of an element at a number.
fn numbered_mention(prop: u32, at: u32, env: &Env, set: &Setting<'_>) -> Mention
    ensures { result ≡ mention_in set.now (of_element prop env.now (closing.index_number at)) }
{
    let index = index_number(at);
    let mention = element_mention(prop, &index, env, set);
    drop(index);
    mention
}

/// Adds what the operand mentions.
fn add_operand_mentions(
    alloc: Global,
    x: &UniqueMember<'_>,
    env: &Env,
    set: &Setting<'_>,
    out: &mut Items<Mention>,
) -> Result<(), NoMemory>
    requires { MemberIsReady (reading_of set.now.state.now) (length env.now) x.now }
    ensures { OnOk result (out.new ≡ out.old ++ map (mention_in set.now) (reads_in set.now env.now (operand_expr x.now))) }
{
    match x {
        UniqueMember::Whole(e) => add_mentions(alloc, e, env, set, out),
        UniqueMember::Element { prop, at, .. } => {
            out.push(numbered_mention(*prop, *at, env, set))?;
            Ok(())
        }
    }
}

/// Adds what two operands mention, and the tests and the loops around them.
#[tactic(auto, using(svr_mention::proofs::Appended::then))]
fn add_pair_mentions(
    alloc: Global,
    x: &UniqueMember<'_>,
    y: &UniqueMember<'_>,
    at: &Around<'_>,
    env: &Env,
    set: &Setting<'_>,
    out: &mut Items<Mention>,
) -> Result<(), NoMemory>
    requires left { MemberIsReady (reading_of set.now.state.now) (length env.now) x.now }
    requires right { MemberIsReady (reading_of set.now.state.now) (length env.now) y.now }
    requires place_ready { GuardsAreReady (reading_of set.now.state.now) (guards_of at.now) }
    ensures { OnOk result (out.new ≡ out.old ++ map (mention_in set.now) (reads_in set.now env.now (operand_expr x.now) ++ reads_in set.now env.now (operand_expr y.now) ++ guards_read_in set.now (guards_of at.now) ++ map of_size (over_of at.now))) }
{
    add_operand_mentions(alloc, x, env, set, out)?;
    add_operand_mentions(alloc, y, env, set, out)?;
    add_guard_mentions(alloc, at, set, out)?;
    add_loop_mentions(at, set, out)
}

/// Adds `x != y`, where it counts in the phase.
fn add_pair(
    alloc: Global,
    x: &UniqueMember<'_>,
    y: &UniqueMember<'_>,
    at: &Around<'_>,
    env: &Env,
    set: &Setting<'_>,
    out: &mut Items<Finding>,
) -> Result<(), NoMemory>
    requires left { MemberIsReady (reading_of set.now.state.now) (length env.now) x.now }
    requires right { MemberIsReady (reading_of set.now.state.now) (length env.now) y.now }
    requires place_ready { GuardsAreReady (reading_of set.now.state.now) (guards_of at.now) }
    ensures { OnOk result (findings out.new ≡ findings out.old ++ found_at set.now (place_of at.now env.now) false (spec.stated (spec.unequal (operand_expr x.now) (operand_expr y.now)))) }
{
    let mut mentions = Items::new(alloc);
    let told = add_pair_mentions(alloc, x, y, at, env, set, &mut mentions);
    let (mentions, _) = beside(mentions, told)?;
    if is_counted(false, env, set, mentions.as_slice()) {
        let e = unequal(alloc, x, y, env);
        let (mentions, e) = beside(mentions, e)?;
        add_occurrence(alloc, false, e, mentions, at, out)
    } else {
        drop(mentions);
        Ok(())
    }
}

#[tactic(auto, using(crate::proofs::Joined::found_after))]
fn add_against(
    alloc: Global,
    x: &UniqueMember<'_>,
    others: &[UniqueMember<'_>],
    at: &Around<'_>,
    env: &Env,
    set: &Setting<'_>,
    out: &mut Items<Finding>,
) -> Result<(), NoMemory>
    requires left { MemberIsReady (reading_of set.now.state.now) (length env.now) x.now }
    requires right { AllReady (reading_of set.now.state.now) (length env.now) others.now }
    requires place_ready { GuardsAreReady (reading_of set.now.state.now) (guards_of at.now) }
    ensures { OnOk result (findings out.new ≡ findings out.old ++ found_of set.now (place_of at.now env.now) (map (spec.unequal (operand_expr x.now)) (operand_exprs others.now))) }
{
    for y in others {
        add_pair(alloc, x, y, at, env, set, out)?;
    }
    Ok(())
}

/// Adds each two of the operands, in the order of the first and then of the second.
#[tactic(auto, using(crate::proofs::Joined::found_pairs))]
fn add_all_pairs(
    alloc: Global,
    operands: &[UniqueMember<'_>],
    at: &Around<'_>,
    env: &Env,
    set: &Setting<'_>,
    out: &mut Items<Finding>,
) -> Result<(), NoMemory>
    requires ready { AllReady (reading_of set.now.state.now) (length env.now) operands.now }
    requires place_ready { GuardsAreReady (reading_of set.now.state.now) (guards_of at.now) }
    ensures { OnOk result (findings out.new ≡ findings out.old ++ found_of set.now (place_of at.now env.now) (spec.pairs (operand_exprs operands.now))) }
{
    let mut left = operands;
    while let [x, others @ ..] = left {
        add_against(alloc, x, others, at, env, set, out)?;
        left = others;
    }
    Ok(())
}

/// The property that the expression as a whole is.
fn whole_property(e: &TExpr) -> Option<u32>
    ensures { result ≡ property_of (expr_term e.now) }
{
    match &e.node {
        TNode::Prop(prop) => Some(*prop),
        TNode::Number { .. }
        | TNode::Element(..)
        | TNode::Cell(..)
        | TNode::Size(..)
        | TNode::Script(_)
        | TNode::Loop(_)
        | TNode::Reduce(..)
        | TNode::Of(..)
        | TNode::Select { .. }
        | TNode::Unary { .. }
        | TNode::Binary { .. }
        | TNode::Choice { .. }
        | TNode::Inside { .. }
        | TNode::Join { .. }
        | TNode::Copies { .. }
        | TNode::Sign { .. } => None,
    }
}

/// Adds the elements of an array, of which each has this width and sign.
fn add_elements(
    prop: u32,
    width: u8,
    signed: bool,
    set: &Setting<'_>,
    out: &mut Items<UniqueMember<'_>>,
) -> Result<(), NoMemory>
    ensures ready { OnOk result ((a : Reading) (depth : ℕ) → AllReady a depth out.old → AllReady a depth out.new) }
    ensures members { OnOk result (operand_exprs out.new ≡ operand_exprs out.old ++ spec.elements_from prop width signed 0 ((shape_in set.now).size prop)) }
{
    for at in 0..size_at(set.sizes, prop) {
        out.push(UniqueMember::Element {
            prop,
            at,
            width,
            signed,
        })?;
    }
    Ok(())
}

/// Adds what a member stands for: itself, or where it is an array its elements.
#[tactic(auto, using(crate::proofs::Members::ready_more))]
fn add_operands<'a>(
    member: &'a TExpr,
    set: &Setting<'_>,
    out: &mut Items<UniqueMember<'a>>,
) -> Result<(), NoMemory>
    ensures ready { OnOk result ((a : Reading) (depth : ℕ) → ExprIsReady a depth (expr_term member.now) → AllReady a depth out.old → AllReady a depth out.new) }
    ensures members { OnOk result (operand_exprs out.new ≡ operand_exprs out.old ++ spec.member_exprs (shape_in set.now) (expr_term member.now) (property_of (expr_term member.now))) }
{
    if let Some(prop) = whole_property(member) {
        if set.is_array(prop) {
            add_elements(prop, member.width, member.signed, set, out)?;
            return Ok(());
        }
    }
    out.push(UniqueMember::Whole(member))?;
    Ok(())
}

/// Adds each two members of `unique`, arrays standing for their elements.
#[tactic(auto, using(crate::proofs::Members::next))]
pub(crate) fn add_pairs(
    alloc: Global,
    members: &[TExpr],
    at: &Around<'_>,
    env: &Env,
    set: &Setting<'_>,
    out: &mut Items<Finding>,
) -> Result<(), NoMemory>
    requires ready { ExprsAreReady (reading_of set.now.state.now) (length env.now) (expr_terms members.now) }
    requires place_ready { GuardsAreReady (reading_of set.now.state.now) (guards_of at.now) }
    ensures { OnOk result (findings out.new ≡ findings out.old ++ found_of set.now (place_of at.now env.now) (spec.pairs (spec.members (shape_in set.now) (expr_terms members.now)))) }
{
    let mut operands = Items::new(alloc);
    for member in members {
        add_operands(member, set, &mut operands)?;
    }
    add_all_pairs(alloc, operands.as_slice(), at, env, set, out)
}
