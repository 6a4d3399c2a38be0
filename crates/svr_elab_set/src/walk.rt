// Items, in one walk.

ghost use Rattle.std.specs.Prelude.{◌≡◌, ◌<◌, ◌+◌, ◌^◌, length, IfOk, Some, None, option_map};
ghost use Rattle.svr_tree.specs.ExprTree.{expr_tree, expr_trees};
ghost use Rattle.svr_tree.specs.ItemTree as tree;
ghost use Rattle.svr_tree.specs.ItemTree.{item_tree, item_trees, set_tree, dist_tree};
ghost use Rattle.svr_elab_fault.specs.Refusals.{first_one};
ghost use Rattle.svr_elab_names.specs.Tables.{space_of};
ghost use Rattle.svr_elab_part.specs.Elab as elab_spec;
ghost use Rattle.svr_elab_part.specs.Seen.{part_of};
ghost use Rattle.svr_elab_part.specs.Fits.{MembersFit, LiteralsFit, AllFit, LoopsFit, AllLoopsFit};
ghost use Rattle.svr_elab_item.specs.Items as spec;
ghost use Rattle.svr_elab_item.specs.Seen as seen;
ghost use Rattle.svr_elab_item.specs.Fits.{ItemFits, ItemsFit, SetFits, ItemLoopsFit, ItemsLoopsFit, SetLoopsFit};

use crate::dist::dist_items;
use std::alloc::Global;
use svr_elab_expr::{beside, both, elab, value};
use svr_elab_form::sole;
use svr_elab_item::{
    Around, ItemPart, ItemsPart, UniquePart, and_item, and_member, branch_item, disable_item,
    else_part, foreach_item, implies_item, in_body, no_else, plain_item, solve_item, unique_item,
};
use svr_elab_names::NameSpace;
use svr_elab_part::Part;
use svr_tree::{Dist, Expr, Item, Set};
use svr_typed::NoMemory;

/// An expression alone.
fn plain(
    alloc: Global,
    at: u32,
    soft: bool,
    e: &Expr,
    names: &NameSpace<'_, '_>,
    around: Around,
) -> Result<ItemPart, NoMemory>
    requires vars { length names.now.vars.now.entries < 2 ^ 32 }
    requires loops { LoopsFit (length names.now.loops.now) (expr_tree e.now) }
    requires members { MembersFit (space_of names.now) }
    requires literals { LiteralsFit (expr_tree e.now) }
    ensures { IfOk result (λ p. seen.item_part p ≡ spec.item first_one (space_of names.now) around (tree.plain at soft (expr_tree e.now) None)) }
{
    let part = value(alloc, e, names)?;
    Ok(plain_item(soft, at, around, part, None))
}

/// An expression with its distribution.
fn dealt(
    alloc: Global,
    at: u32,
    soft: bool,
    e: &Expr,
    dist: &Dist,
    names: &NameSpace<'_, '_>,
    around: Around,
) -> Result<ItemPart, NoMemory>
    requires vars { length names.now.vars.now.entries < 2 ^ 32 }
    requires loops { ItemLoopsFit (length names.now.loops.now) (tree.plain at soft (expr_tree e.now) (Some (dist_tree dist.now))) }
    requires members { MembersFit (space_of names.now) }
    requires literals { ItemFits (tree.plain at soft (expr_tree e.now) (Some (dist_tree dist.now))) }
    ensures { IfOk result (λ p. seen.item_part p ≡ spec.item first_one (space_of names.now) around (tree.plain at soft (expr_tree e.now) (Some (dist_tree dist.now)))) }
{
    let part = value(alloc, e, names);
    let (part, members) = both(part, dist_items(alloc, dist.items.as_slice(), names))?;
    Ok(plain_item(soft, at, around, part, Some((dist.at, members))))
}

/// An expression, with its distribution where it has one.
fn expression(
    alloc: Global,
    at: u32,
    soft: bool,
    e: &Expr,
    dist: &Option<Dist>,
    names: &NameSpace<'_, '_>,
    around: Around,
) -> Result<ItemPart, NoMemory>
    requires vars { length names.now.vars.now.entries < 2 ^ 32 }
    requires loops { ItemLoopsFit (length names.now.loops.now) (tree.plain at soft (expr_tree e.now) (option_map dist_tree dist.now)) }
    requires members { MembersFit (space_of names.now) }
    requires literals { ItemFits (tree.plain at soft (expr_tree e.now) (option_map dist_tree dist.now)) }
    ensures { IfOk result (λ p. seen.item_part p ≡ spec.item first_one (space_of names.now) around (tree.plain at soft (expr_tree e.now) (option_map dist_tree dist.now))) }
{
    match dist {
        None => plain(alloc, at, soft, e, names, around),
        Some(dist) => dealt(alloc, at, soft, e, dist, names, around),
    }
}

/// An expression where an array may stand as well.
fn sole_part(alloc: Global, e: &Expr, names: &NameSpace<'_, '_>) -> Result<Part, NoMemory>
    requires vars { length names.now.vars.now.entries < 2 ^ 32 }
    requires loops { LoopsFit (length names.now.loops.now) (expr_tree e.now) }
    requires members { MembersFit (space_of names.now) }
    requires literals { LiteralsFit (expr_tree e.now) }
    ensures { IfOk result (λ p. part_of p ≡ elab_spec.sole first_one (elab_spec.elab first_one (space_of names.now) (expr_tree e.now))) }
{
    Ok(sole(elab(alloc, e, names)?))
}

/// `unique { members }`: a set whose values differ by pairs.
fn unique(alloc: Global, list: &[Expr], names: &NameSpace<'_, '_>) -> Result<ItemPart, NoMemory>
    requires vars { length names.now.vars.now.entries < 2 ^ 32 }
    requires loops { AllLoopsFit (length names.now.loops.now) (expr_trees list.now) }
    requires members { MembersFit (space_of names.now) }
    requires literals { AllFit (expr_trees list.now) }
    ensures { IfOk result (λ p. seen.item_part p ≡ spec.unique_item first_one (spec.members first_one (space_of names.now) (spec.no_members first_one) (expr_trees list.now))) }
{
    let mut known = UniquePart::none(alloc);
    for e in list {
        let part = sole_part(alloc, e, names)?;
        known = and_member(known, part)?;
    }
    Ok(unique_item(known))
}

/// `disable soft target`
fn disable(
    alloc: Global,
    target: &Expr,
    names: &NameSpace<'_, '_>,
    around: Around,
) -> Result<ItemPart, NoMemory>
    requires vars { length names.now.vars.now.entries < 2 ^ 32 }
    requires loops { LoopsFit (length names.now.loops.now) (expr_tree target.now) }
    requires members { MembersFit (space_of names.now) }
    requires literals { LiteralsFit (expr_tree target.now) }
    ensures { IfOk result (λ p. seen.item_part p ≡ spec.disable_item first_one around (elab_spec.sole first_one (elab_spec.elab first_one (space_of names.now) (expr_tree target.now)))) }
{
    let target = sole_part(alloc, target, names)?;
    Ok(disable_item(around, target))
}

/// What is known of an item, with its first refusal. `names`: what names stand for; `around`: the guards and loops around it.
#[cycle(item)]
pub fn item(
    alloc: Global,
    item: &Item,
    names: &NameSpace<'_, '_>,
    around: Around,
) -> Result<ItemPart, NoMemory>
    requires vars { length names.now.vars.now.entries < 2 ^ 32 }
    requires loops { ItemLoopsFit (length names.now.loops.now) (item_tree item.now) }
    requires members { MembersFit (space_of names.now) }
    requires literals { ItemFits (item_tree item.now) }
    ensures { IfOk result (λ p. seen.item_part p ≡ spec.item first_one (space_of names.now) around (item_tree item.now)) }
{
    match item {
        Item::Plain {
            at,
            soft,
            expr,
            dist,
        } => expression(alloc, *at, *soft, expr, dist, names, around),
        Item::Unique { members, .. } => unique(alloc, members.as_slice(), names),
        Item::Implies { test, body, .. } => implication(alloc, body, test, names, around),
        Item::Branch { test, yes, no, .. } => match no {
            None => branch(alloc, yes, test, names, around),
            Some(no) => branch_else(alloc, yes, no, test, names, around),
        },
        Item::Foreach {
            array,
            vars,
            body,
            ..
        } => foreach(alloc, body, array, vars.as_slice(), names, around),
        Item::Disable { target, .. } => disable(alloc, target, names, around),
        Item::Solve { first, later, .. } => {
            solve_item(alloc, first.as_slice(), later.as_slice(), names)
        }
    }
}

/// `test -> body`
#[cycle(item)]
fn implication(
    alloc: Global,
    body: &Set,
    test: &Expr,
    names: &NameSpace<'_, '_>,
    around: Around,
) -> Result<ItemPart, NoMemory>
    requires vars { length names.now.vars.now.entries < 2 ^ 32 }
    requires loops { ItemLoopsFit (length names.now.loops.now) (tree.implies 0 (expr_tree test.now) (set_tree body.now)) }
    requires members { MembersFit (space_of names.now) }
    requires literals { ItemFits (tree.implies 0 (expr_tree test.now) (set_tree body.now)) }
    ensures { IfOk result (λ p. seen.item_part p ≡ spec.item first_one (space_of names.now) around (tree.implies 0 (expr_tree test.now) (set_tree body.now))) }
{
    let test = value(alloc, test, names)?;
    let body = set(alloc, body, names, around.under(&test));
    let (test, body) = beside(test, body)?;
    Ok(implies_item(test, body))
}

/// `if (test) yes`
#[cycle(item)]
fn branch(
    alloc: Global,
    yes: &Set,
    test: &Expr,
    names: &NameSpace<'_, '_>,
    around: Around,
) -> Result<ItemPart, NoMemory>
    requires vars { length names.now.vars.now.entries < 2 ^ 32 }
    requires loops { ItemLoopsFit (length names.now.loops.now) (tree.branch 0 (expr_tree test.now) (set_tree yes.now) tree.no_else) }
    requires members { MembersFit (space_of names.now) }
    requires literals { ItemFits (tree.branch 0 (expr_tree test.now) (set_tree yes.now) tree.no_else) }
    ensures { IfOk result (λ p. seen.item_part p ≡ spec.item first_one (space_of names.now) around (tree.branch 0 (expr_tree test.now) (set_tree yes.now) tree.no_else)) }
{
    let test = value(alloc, test, names)?;
    let yes = set(alloc, yes, names, around.under(&test));
    let (test, yes) = beside(test, yes)?;
    Ok(branch_item(test, yes, no_else()))
}

/// `if (test) yes else no`
#[cycle(item)]
fn branch_else(
    alloc: Global,
    yes: &Set,
    no: &Set,
    test: &Expr,
    names: &NameSpace<'_, '_>,
    around: Around,
) -> Result<ItemPart, NoMemory>
    requires vars { length names.now.vars.now.entries < 2 ^ 32 }
    requires loops { ItemLoopsFit (length names.now.loops.now) (tree.branch 0 (expr_tree test.now) (set_tree yes.now) (tree.else_set (set_tree no.now))) }
    requires members { MembersFit (space_of names.now) }
    requires literals { ItemFits (tree.branch 0 (expr_tree test.now) (set_tree yes.now) (tree.else_set (set_tree no.now))) }
    ensures { IfOk result (λ p. seen.item_part p ≡ spec.item first_one (space_of names.now) around (tree.branch 0 (expr_tree test.now) (set_tree yes.now) (tree.else_set (set_tree no.now)))) }
{
    let test = value(alloc, test, names)?;
    let around = around.under(&test);
    let sets = both(
        set(alloc, yes, names, around),
        set(alloc, no, names, around),
    );
    let (test, (yes, no)) = beside(test, sets)?;
    Ok(branch_item(test, yes, else_part(no)))
}

/// `foreach (array[vars]) body`
#[cycle(item)]
fn foreach(
    alloc: Global,
    body: &Set,
    array: &Expr,
    vars: &[u32],
    names: &NameSpace<'_, '_>,
    around: Around,
) -> Result<ItemPart, NoMemory>
    requires vars { length names.now.vars.now.entries < 2 ^ 32 }
    requires loops { ItemLoopsFit (length names.now.loops.now) (tree.foreach 0 (expr_tree array.now) vars.now (set_tree body.now)) }
    requires members { MembersFit (space_of names.now) }
    requires literals { ItemFits (tree.foreach 0 (expr_tree array.now) vars.now (set_tree body.now)) }
    ensures { IfOk result (λ p. seen.item_part p ≡ spec.item first_one (space_of names.now) around (tree.foreach 0 (expr_tree array.now) vars.now (set_tree body.now))) }
{
    let array = elab(alloc, array, names)?;
    let body = in_loops(alloc, body, vars, names, around.over(&array));
    let (array, body) = beside(array, body)?;
    Ok(foreach_item(sole(array), vars, body))
}

/// A set inside loops, whose variables have these names.
#[cycle(item)]
#[tactic(auto, using(svr_elab_expr::proofs::Walk::members_inside, crate::proofs::Loops::loops_inside))]
fn in_loops(
    alloc: Global,
    body: &Set,
    vars: &[u32],
    names: &NameSpace<'_, '_>,
    around: Around,
) -> Result<ItemsPart, NoMemory>
    requires vars { length names.now.vars.now.entries < 2 ^ 32 }
    requires loops { SetLoopsFit (length names.now.loops.now + length vars.now) (set_tree body.now) }
    requires members { MembersFit (space_of names.now) }
    requires literals { SetFits (set_tree body.now) }
    ensures { IfOk result (λ p. seen.items_part p ≡ spec.items_in first_one (spec.in_body (space_of names.now) vars.now) around (set_tree body.now)) }
{
    let loops = in_body(alloc, names, vars)?;
    let inner = names.with_loops(loops.as_slice());
    set(alloc, body, &inner, around)
}

/// What is known of the items of a set.
#[cycle(item)]
fn set(
    alloc: Global,
    set: &Set,
    names: &NameSpace<'_, '_>,
    around: Around,
) -> Result<ItemsPart, NoMemory>
    requires vars { length names.now.vars.now.entries < 2 ^ 32 }
    requires loops { SetLoopsFit (length names.now.loops.now) (set_tree set.now) }
    requires members { MembersFit (space_of names.now) }
    requires literals { SetFits (set_tree set.now) }
    ensures { IfOk result (λ p. seen.items_part p ≡ spec.items_in first_one (space_of names.now) around (set_tree set.now)) }
{
    items(alloc, set.items.as_slice(), names, around)
}

/// What is known of items one behind the other, with their first refusal.
#[cycle(item)]
pub fn items(
    alloc: Global,
    list: &[Item],
    names: &NameSpace<'_, '_>,
    around: Around,
) -> Result<ItemsPart, NoMemory>
    requires vars { length names.now.vars.now.entries < 2 ^ 32 }
    requires loops { ItemsLoopsFit (length names.now.loops.now) (item_trees list.now) }
    requires members { MembersFit (space_of names.now) }
    requires literals { ItemsFit (item_trees list.now) }
    ensures { IfOk result (λ p. seen.items_part p ≡ spec.items first_one (space_of names.now) around (spec.no_items first_one) (item_trees list.now)) }
{
    let mut part = ItemsPart::none(alloc);
    for each in list {
        let next = item(alloc, each, names, around)?;
        part = and_item(part, next)?;
    }
    Ok(part)
}
