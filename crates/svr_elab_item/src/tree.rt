// The items that known parts make.

ghost use Rattle.std.specs.Prelude.{◌≡◌, option_map, map};
ghost use Rattle.svr_typed.specs.ExprTerm.{expr_term};
ghost use Rattle.svr_typed.specs.ItemTerm.{item_term, dist_term};
ghost use Rattle.svr_elab_item.specs.Items as spec;
ghost use Rattle.svr_elab_item.specs.Seen.{else_term};

use crate::root::inner_of;
use sqlite_items::Items;
use svr_elab_names::Property;
use svr_typed::{TDistItem, TExpr, TItem};

pub(crate) fn plain(soft: bool, expr: Option<TExpr>) -> Option<TItem>
    ensures { option_map item_term result ≡ spec.plain_tree soft (option_map expr_term expr) }
{
    match expr {
        None => None,
        Some(expr) => Some(TItem::plain(soft, expr, None)),
    }
}

pub(crate) fn dealt(
    soft: bool,
    expr: Option<TExpr>,
    dist: Option<Items<TDistItem>>,
) -> Option<TItem>
    ensures { option_map item_term result ≡ spec.dist_tree soft (option_map expr_term expr) (option_map (map dist_term) dist) }
{
    match expr.zip(dist) {
        None => None,
        Some((expr, dist)) => Some(TItem::plain(soft, expr, Some(dist))),
    }
}

pub(crate) fn unique(members: Option<Items<TExpr>>) -> Option<TItem>
    ensures { option_map item_term result ≡ spec.unique_tree (option_map (map expr_term) members) }
{
    match members {
        None => None,
        Some(members) => Some(TItem::unique(members)),
    }
}

pub(crate) fn implies(test: Option<TExpr>, body: Option<Items<TItem>>) -> Option<TItem>
    ensures { option_map item_term result ≡ spec.implies_tree (option_map expr_term test) (option_map (map item_term) body) }
{
    match test.zip(body) {
        None => None,
        Some((test, body)) => Some(TItem::implies(test, body)),
    }
}

pub(crate) fn branch(
    test: Option<TExpr>,
    yes: Option<Items<TItem>>,
    no: Option<Option<Items<TItem>>>,
) -> Option<TItem>
    ensures { option_map item_term result ≡ spec.branch_tree (option_map expr_term test) (option_map (map item_term) yes) (option_map else_term no) }
{
    match test.zip(yes).zip(no) {
        None => None,
        Some(((test, yes), no)) => Some(TItem::Branch { test, yes, no }),
    }
}

/// The items behind `else`, where they are known.
pub(crate) fn else_items(body: Option<Items<TItem>>) -> Option<Option<Items<TItem>>>
    ensures { option_map else_term result ≡ spec.else_tree (option_map (map item_term) body) }
{
    match body {
        None => None,
        Some(body) => Some(Some(body)),
    }
}

pub(crate) fn foreach(
    array: Option<Property>,
    names: u8,
    body: Option<Items<TItem>>,
) -> Option<TItem>
    ensures { option_map item_term result ≡ spec.foreach_tree array names (option_map (map item_term) body) }
{
    let Some(array) = array else {
        return None;
    };
    let Some(inner) = inner_of(array.dims) else {
        return None;
    };
    let Some(body) = body else {
        return None;
    };
    Some(TItem::foreach(array.number, inner, names, body))
}

pub(crate) fn disable(target: Option<TExpr>) -> Option<TItem>
    ensures { option_map item_term result ≡ spec.disable_tree (option_map expr_term target) }
{
    match target {
        None => None,
        Some(target) => Some(TItem::disable(target)),
    }
}

pub(crate) fn solve(first: Option<Items<TExpr>>, later: Option<Items<TExpr>>) -> Option<TItem>
    ensures { option_map item_term result ≡ spec.solve_trees (option_map (map expr_term) first) (option_map (map expr_term) later) }
{
    match first.zip(later) {
        None => None,
        Some((first, later)) => Some(TItem::solve(first, later)),
    }
}
