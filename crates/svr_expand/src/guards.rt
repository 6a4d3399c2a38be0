// Closed expressions under the tests of a place.

ghost use Rattle.std.specs.Prelude.{◌≡◌, Option, Some, IfOk, option_map};
ghost use Rattle.svr_typed.specs.ExprTerm.{ExprTerm, expr_term};
ghost use Rattle.svr_frame.specs.Occurrences as spec;
ghost use Rattle.svr_expand.specs.Expanded.{guards_of, negation_of, joined};

use crate::around::Around;
use crate::held::let_go;
use std::alloc::Global;
use svr_closed::closed;
use svr_eval::Env;
use svr_operator::{BinOp, UnOp};
use svr_typed::{NoMemory, TExpr, TNode};

/// `!e`
fn not(alloc: Global, e: TExpr) -> Result<TExpr, NoMemory>
    ensures { IfOk result (λ r. expr_term r ≡ negation_of (expr_term e)) }
{
    Ok(TExpr::new(1, false, TNode::unary(alloc, UnOp::LogicalNot, e)?))
}

/// An expression of one bit with two operands.
pub(crate) fn binary(alloc: Global, op: BinOp, left: TExpr, right: TExpr) -> Result<TExpr, NoMemory>
    ensures { IfOk result (λ r. expr_term r ≡ joined op (expr_term left) (expr_term right)) }
{
    Ok(TExpr::new(1, false, TNode::binary(alloc, op, left, right)?))
}

fn guard(alloc: Global, test: &TExpr, wanted: bool, env: &Env) -> Result<TExpr, NoMemory>
    ensures { IfOk result (λ r. expr_term r ≡ spec.guard_expr (record { test = expr_term test.now; wanted = wanted; env = env.now })) }
{
    let test = closed(alloc, test, env)?;
    if wanted { Ok(test) } else { not(alloc, test) }
}

/// `outer && own`, or `own` where no test is around it.
fn and_also(alloc: Global, outer: Option<TExpr>, own: TExpr) -> Result<TExpr, NoMemory>
    ensures { IfOk result (λ r. expr_term r ≡ spec.and_also (option_map expr_term outer) (expr_term own)) }
{
    match outer {
        None => Ok(own),
        Some(outer) => binary(alloc, BinOp::LogicalAnd, outer, own),
    }
}

/// The tests around a place and its own one, where both are there.
fn with_own(
    alloc: Global,
    outer: Result<Option<TExpr>, NoMemory>,
    own: Result<TExpr, NoMemory>,
) -> Result<Option<TExpr>, NoMemory>
    ensures { (c : Option ExprTerm) (x : ExprTerm) → IfOk outer (λ o. option_map expr_term o ≡ c) → IfOk own (λ e. expr_term e ≡ x) → IfOk result (λ r. option_map expr_term r ≡ Some (spec.and_also c x)) }
{
    match outer.ok().zip(own.ok()) {
        None => Err(NoMemory),
        Some((outer, own)) => Ok(Some(and_also(alloc, outer, own)?)),
    }
}

/// `g1 && .. && gk`, where there are tests.
fn condition(alloc: Global, at: &Around<'_>) -> Result<Option<TExpr>, NoMemory>
    ensures { IfOk result (λ c. option_map expr_term c ≡ spec.condition (guards_of at.now)) }
{
    match at {
        Around::Outside => Ok(None),
        Around::Within(_, others) => condition(alloc, others),
        Around::Under(test, wanted, env, others) => {
            let own = guard(alloc, test, *wanted, env);
            with_own(alloc, condition(alloc, others), own)
        }
    }
}

/// `test -> e`, or `e` where there is no test.
fn under(alloc: Global, test: Option<TExpr>, e: TExpr) -> Result<TExpr, NoMemory>
    ensures { IfOk result (λ r. expr_term r ≡ spec.guarded (option_map expr_term test) (expr_term e)) }
{
    match test {
        None => Ok(e),
        Some(test) => binary(alloc, BinOp::Implies, test, e),
    }
}

/// `g1 && .. && gk -> e`, or `e` where there is no test.
pub(crate) fn guarded(alloc: Global, at: &Around<'_>, e: TExpr) -> Result<TExpr, NoMemory>
    ensures { IfOk result (λ r. expr_term r ≡ spec.guarded (spec.condition (guards_of at.now)) (expr_term e)) }
{
    match condition(alloc, at) {
        Err(fault) => Err(let_go(e, fault)),
        Ok(test) => under(alloc, test, e),
    }
}
