// The truth of constraint items (IEEE 1800-2017, 18.5).

ghost use Rattle.std.specs.Prelude.{◌≡◌, ◌≤◌, ◌+◌, ◌-◌, ◌⊎◌, length, map};
ghost use Rattle.svr_typed.specs.ExprTerm.{expr_term};
ghost use Rattle.svr_typed.specs.ItemTerm.{item_term, item_terms, dist_term, dist_terms};
ghost use Rattle.svr_limits.specs.declared.limit.TheConstants.{LOOP_LIMIT};
ghost use Rattle.svr_eval.specs.Reading.{reading_of};
ghost use Rattle.svr_eval.specs.Typed.{IsTyped, CanRead};
ghost use Rattle.svr_eval.specs.Value.{operand_of};
ghost use Rattle.svr_eval.specs.Holds as spec;
ghost use Rattle.svr_eval.specs.Holds.{ItemIsTyped, ItemsAreTyped, MembersAreTyped, WeightIsTyped, ItemCanRead, ItemsCanRead, MembersCanRead, WeightCanRead};

use crate::assign::Assign;
use crate::env::Env;
use crate::expr::{fits, value};
use crate::operand::are_distinct;
use svr_typed::{TDistItem, TExpr, TItem};

/// Whether the expression alone is not 0.
fn is_set(e: &TExpr, a: &Assign, env: &Env) -> bool
    requires typed { IsTyped (expr_term e.now) }
    requires reads { CanRead (reading_of a.now) (length env.now) (expr_term e.now) }
    ensures { result ≡ spec.is_met (reading_of a.now) env.now (expr_term e.now) None }
{
    value(e, a, env).value() != 0
}

/// Whether the member's weight is not 0.
fn has_weight(d: &TDistItem, a: &Assign, env: &Env) -> bool
    requires typed { WeightIsTyped (dist_term d.now).weight }
    requires reads { WeightCanRead (reading_of a.now) (length env.now) (dist_term d.now).weight }
    ensures { result ≡ spec.has_weight (reading_of a.now) env.now (dist_term d.now).weight }
{
    match &d.weight {
        None => true,
        Some((_, e)) => is_set(e, a, env),
    }
}

/// Whether the value is inside the members whose weight is not 0.
fn is_dealt(e: &TExpr, dist: &[TDistItem], a: &Assign, env: &Env) -> bool
    requires typed { IsTyped (expr_term e.now) }
    requires reads { CanRead (reading_of a.now) (length env.now) (expr_term e.now) }
    requires members_typed { MembersAreTyped (dist_terms dist.now) }
    requires members_read { MembersCanRead (reading_of a.now) (length env.now) (dist_terms dist.now) }
    ensures { result ≡ spec.is_dealt (reading_of a.now) env.now (expr_term e.now) (dist_terms dist.now) }
{
    for d in dist {
        if has_weight(d, a, env) && fits(&d.range, e, a, env) {
            return true;
        }
    }
    false
}

/// Whether an item holds. Soft items, `disable soft` and `solve` do.
#[cycle(holds)]
pub fn holds(item: &TItem, a: &Assign, env: &Env) -> bool
    requires typed { ItemIsTyped (item_term item.now) }
    requires reads { ItemCanRead (reading_of a.now) (length env.now) (item_term item.now) }
    ensures { result ≡ spec.holds (reading_of a.now) env.now (item_term item.now) }
{
    match item {
        TItem::Plain { soft, expr, dist } => {
            *soft
                || match dist {
                    None => is_set(expr, a, env),
                    Some(members) => is_dealt(expr, members.as_slice(), a, env),
                }
        }
        TItem::Unique { members } => are_distinct(members.as_slice(), a, env),
        TItem::Implies { test, body } => {
            !is_set(test, a, env) || all_hold(body.as_slice(), a, env)
        }
        TItem::Branch { test, yes, no } => {
            if is_set(test, a, env) {
                all_hold(yes.as_slice(), a, env)
            } else {
                match no {
                    None => true,
                    Some(body) => all_hold(body.as_slice(), a, env),
                }
            }
        }
        TItem::Foreach {
            array,
            inner,
            names,
            body,
        } => {
            for i in 0..a.size(*array) / *inner {
                if !row_holds(body.as_slice(), *inner, *names, a, &env.inner(i)) {
                    return false;
                }
            }
            true
        }
        TItem::Disable { .. } | TItem::Solve { .. } => true,
    }
}

/// Whether the set of a loop holds in one row of the array: where the loop has two variables, for each index of the second dimension.
#[cycle(holds)]
fn row_holds(body: &[TItem], inner: u32, names: u8, a: &Assign, env: &Env) -> bool
    requires names { (names ≡ 1) ⊎ (names ≡ 2) }
    requires typed { ItemsAreTyped (item_terms body.now) }
    requires depth { length env.now + names ≤ LOOP_LIMIT + 1 }
    requires reads { ItemsCanRead (reading_of a.now) (length env.now + names - 1) (item_terms body.now) }
    ensures { result ≡ spec.each_in_row inner names (λ indexes. spec.all_hold (reading_of a.now) indexes (item_terms body.now)) env.now }
{
    if names != 2 {
        return all_hold(body, a, env);
    }
    for j in 0..inner {
        if !all_hold(body, a, &env.inner(j)) {
            return false;
        }
    }
    true
}

/// Whether all items hold.
#[cycle(holds)]
pub fn all_hold(items: &[TItem], a: &Assign, env: &Env) -> bool
    requires typed { ItemsAreTyped (item_terms items.now) }
    requires reads { ItemsCanRead (reading_of a.now) (length env.now) (item_terms items.now) }
    ensures { result ≡ spec.all_hold (reading_of a.now) env.now (item_terms items.now) }
{
    for item in items {
        if !holds(item, a, env) {
            return false;
        }
    }
    true
}
