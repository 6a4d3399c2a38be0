// Whether values meet the items of a call that are needed.

ghost use Rattle.std.specs.Prelude.{◌≡◌, ◌<◌, true, false, not, ◌||◌, [], map, length, slice_index_or, MatchOption, IfSome};
ghost use Rattle.std.specs.List.{All, list_all};
ghost use Rattle.svr_typed.specs.ExprTerm.{expr_term};
ghost use Rattle.svr_eval.specs.Reading.{reading_of};
ghost use Rattle.svr_eval.specs.Value.{alone, is_set};
ghost use Rattle.svr_eval.specs.Typed.{IsTyped, CanRead};
ghost use Rattle.svr_values.specs.Needed.{needed_of};

use crate::hold::holds;
use svr_eval::Assign;
use svr_typed::TExpr;

/// Whether the mark at a place says that an item is needed.
fn is_needed(needed: &[bool], at: usize) -> bool
    ensures { result ≡ slice_index_or needed.now at false }
{
    match needed.get(at) {
        Some(mark) => *mark,
        None => false,
    }
}

/// Whether a closed expression has a value that is not 0, where that is needed.
fn holds_if_needed(item: &TExpr, needed: bool, a: &Assign) -> bool
    requires typed { IsTyped (expr_term item.now) }
    requires reads { CanRead (reading_of a.now) 0 (expr_term item.now) }
    ensures { result ≡ (not needed || is_set (alone (reading_of a.now) [] (expr_term item.now))) }
{
    !needed || holds(item, a)
}

/// A place of the list where some closed expression is marked as needed and has the value 0, none where there is none. It is that of the first of them, on which nothing rests: it tells where to look first when they are asked again.
pub fn needed_fault(items: &[TExpr], needed: &[bool], a: &Assign) -> Option<usize>
    requires typed { All (λ e. IsTyped (expr_term e)) items.now }
    requires reads { All (λ e. CanRead (reading_of a.now) 0 (expr_term e)) items.now }
    ensures hold { MatchOption result
        (list_all (λ e. is_set (alone (reading_of a.now) [] e)) (needed_of (map expr_term items.now) needed.now) ≡ true)
        (λ _. list_all (λ e. is_set (alone (reading_of a.now) [] e)) (needed_of (map expr_term items.now) needed.now) ≡ false) }
    ensures within { IfSome result (λ at. at < length items.now) }
{
    for (at, item) in items.iter().enumerate() {
        if !holds_if_needed(item, is_needed(needed, at), a) {
            return Some(at);
        }
    }
    None
}
