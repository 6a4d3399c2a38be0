// What an item states, as a closed expression (IEEE 1800-2017, 18.5.4).

ghost use Rattle.std.specs.Prelude.{◌≡◌, IfOk, length, map, filter, option_map};
ghost use Rattle.svr_typed.specs.ExprTerm.{expr_term, range_term};
ghost use Rattle.svr_typed.specs.ItemTerm.{dist_term, dist_terms};
ghost use Rattle.svr_eval.specs.Reading.{reading_of};
ghost use Rattle.svr_eval.specs.Value as value;
ghost use Rattle.svr_eval.specs.Typed.{IsTyped, CanRead};
ghost use Rattle.svr_eval.specs.Holds as truth;
ghost use Rattle.svr_eval.specs.Holds.{WeightIsTyped, MembersAreTyped, DistIsTyped, WeightCanRead, MembersCanRead, DistCanRead};
ghost use Rattle.svr_frame.specs.Occurrences as spec;

use crate::close::{closed, closed_member};
use sqlite_items::Items;
use std::alloc::Global;
use svr_eval::{Assign, Env, value};
use svr_typed::{NoMemory, TDistItem, TExpr, TNode, TRange};

/// Whether the expression is not 0 in the state.
pub fn is_set(e: &TExpr, env: &Env, state: &Assign) -> bool
    requires typed { IsTyped (expr_term e.now) }
    requires reads { CanRead (reading_of state.now) (length env.now) (expr_term e.now) }
    ensures { result ≡ value.is_set (value.alone (reading_of state.now) env.now (expr_term e.now)) }
{
    value(e, state, env).value() != 0
}

/// Whether the member's weight is not 0 in the state.
fn has_weight(d: &TDistItem, env: &Env, state: &Assign) -> bool
    requires typed { WeightIsTyped (dist_term d.now).weight }
    requires reads { WeightCanRead (reading_of state.now) (length env.now) (dist_term d.now).weight }
    ensures { result ≡ truth.has_weight (reading_of state.now) env.now (dist_term d.now).weight }
{
    match &d.weight {
        None => true,
        Some((_, e)) => is_set(e, env, state),
    }
}

/// The members whose weight is not 0 in the state, closed.
fn closed_members(
    alloc: Global,
    dist: &[TDistItem],
    env: &Env,
    state: &Assign,
) -> Result<Items<TRange>, NoMemory>
    requires typed { MembersAreTyped (dist_terms dist.now) }
    requires reads { MembersCanRead (reading_of state.now) (length env.now) (dist_terms dist.now) }
    ensures { IfOk result (λ r. map range_term r ≡ spec.closed_members env.now (filter (spec.are_weighed (reading_of state.now) env.now) (dist_terms dist.now))) }
{
    let mut members = Items::new(alloc);
    for d in dist {
        if has_weight(d, env, state) {
            members.push(closed_member(alloc, &d.range, env)?)?;
        }
    }
    Ok(members)
}

/// What a plain item states, as a closed expression: a distribution is set membership (IEEE 1800-2017, 18.5.4).
pub fn fact_expr(
    alloc: Global,
    expr: &TExpr,
    dist: &Option<Items<TDistItem>>,
    env: &Env,
    state: &Assign,
) -> Result<TExpr, NoMemory>
    requires typed { DistIsTyped (option_map dist_terms dist.now) }
    requires reads { DistCanRead (reading_of state.now) (length env.now) (option_map dist_terms dist.now) }
    ensures { IfOk result (λ r. expr_term r ≡ spec.fact_expr (spec.are_weighed (reading_of state.now)) env.now (spec.fact_of (expr_term expr.now) (option_map dist_terms dist.now))) }
{
    match dist {
        None => closed(alloc, expr, env),
        Some(members) => {
            let members = closed_members(alloc, members.as_slice(), env, state);
            match closed(alloc, expr, env).ok().zip(members.ok()) {
                None => Err(NoMemory),
                Some((left, members)) => {
                    Ok(TExpr::new(1, false, TNode::inside(alloc, left, members)?))
                }
            }
        }
    }
}
