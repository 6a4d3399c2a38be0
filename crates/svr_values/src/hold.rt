// Whether values meet the items of a call.

ghost use Rattle.std.specs.Prelude.{◌≡◌, [], map};
ghost use Rattle.std.specs.List.{All, list_all};
ghost use Rattle.svr_typed.specs.ExprTerm.{expr_term};
ghost use Rattle.svr_eval.specs.Reading.{reading_of};
ghost use Rattle.svr_eval.specs.Value.{alone, is_set};
ghost use Rattle.svr_eval.specs.Typed.{IsTyped, CanRead};

use svr_eval::{Assign, Env, value};
use svr_typed::TExpr;

/// Whether a closed expression has a value that is not 0.
pub(crate) fn holds(item: &TExpr, a: &Assign) -> bool
    requires typed { IsTyped (expr_term item.now) }
    requires reads { CanRead (reading_of a.now) 0 (expr_term item.now) }
    ensures { result ≡ is_set (alone (reading_of a.now) [] (expr_term item.now)) }
{
    value(item, a, &Env::new()).value() != 0
}

/// Whether each closed expression has a value that is not 0.
pub fn all_hold(items: &[TExpr], a: &Assign) -> bool
    requires typed { All (λ e. IsTyped (expr_term e)) items.now }
    requires reads { All (λ e. CanRead (reading_of a.now) 0 (expr_term e)) items.now }
    ensures { result ≡ list_all (λ e. is_set (alone (reading_of a.now) [] e)) (map expr_term items.now) }
{
    for item in items {
        if !holds(item, a) {
            return false;
        }
    }
    true
}
