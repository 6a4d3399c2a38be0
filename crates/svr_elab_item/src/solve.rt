// `solve` (IEEE 1800-2017, 18.5.10): names of scalars that are declared `rand`.

ghost use Rattle.std.specs.Prelude.{◌≡◌, ◌<◌, ◌^◌, length, IfOk, None, option_map};
ghost use Rattle.svr_typed.specs.ExprTerm.{expr_term};
ghost use Rattle.svr_tree.specs.ExprTree.{expr_tree, expr_trees};
ghost use Rattle.svr_elab_fault.specs.Refusals.{first_one};
ghost use Rattle.svr_elab_names.specs.declared.Meaning.TheVariants.{PropertyOf};
ghost use Rattle.svr_elab_names.specs.Tables.{space_of};
ghost use Rattle.svr_elab_part.specs.Elab as elab_spec;
ghost use Rattle.svr_elab_item.specs.Items as spec;
ghost use Rattle.svr_elab_item.specs.Seen.{item_part, solve_part};

use crate::list::and_more;
use crate::part::{ItemPart, SolvePart};
use crate::root::is_plain_rand;
use crate::tree;
use sqlite_items::Items;
use std::alloc::Global;
use svr_elab_fault::{Fault, earlier, when};
use svr_elab_names::{Meaning, NameSpace, Property};
use svr_elab_part::both;
use svr_refusal::Refusal;
use svr_tree::Expr;
use svr_typed::{NoMemory, TExpr, TNode};

/// The last name of a path.
fn last_name(at: u32, names: &[u32]) -> u32
    ensures { result ≡ elab_spec.last_name at names.now }
{
    let mut last = at;
    for name in names {
        last = *name;
    }
    last
}

fn property_fault(name: u32, property: Property) -> Option<Fault>
    ensures { result ≡ spec.solve_faults first_one name (PropertyOf property None) }
{
    let other = when(!is_plain_rand(property.rand), name, Refusal::SolveRandc);
    earlier(
        other,
        when(property.dims.is_array(), name, Refusal::LeftOut),
    )
}

fn solve_fault(name: u32, meaning: Meaning) -> Option<Fault>
    ensures { result ≡ spec.solve_faults first_one name meaning }
{
    match meaning {
        Meaning::Wrong { name } => when(true, name, Refusal::UnknownName),
        Meaning::PropertyOf { property, .. } => property_fault(name, property),
        Meaning::SizeOf { .. } => when(true, name, Refusal::SolveRandc),
        Meaning::LoopOf { .. }
        | Meaning::ItemOf { .. }
        | Meaning::MemberOf { .. }
        | Meaning::FoldOf { .. }
        | Meaning::VariableOf { .. }
        | Meaning::ObjectOf { .. } => when(true, name, Refusal::UnknownName),
    }
}

fn property_tree(property: Property) -> Option<TExpr>
    ensures { option_map expr_term result ≡ spec.solve_tree (PropertyOf property None) }
{
    match property.kind {
        None => None,
        Some(vector) => {
            let kind = vector.kind;
            Some(TExpr::new(kind.width, kind.signed, TNode::prop(property.number)))
        }
    }
}

fn solve_tree(meaning: Meaning) -> Option<TExpr>
    ensures { option_map expr_term result ≡ spec.solve_tree meaning }
{
    match meaning {
        Meaning::PropertyOf { property, .. } => property_tree(property),
        Meaning::Wrong { .. }
        | Meaning::LoopOf { .. }
        | Meaning::ItemOf { .. }
        | Meaning::MemberOf { .. }
        | Meaning::SizeOf { .. }
        | Meaning::FoldOf { .. }
        | Meaning::VariableOf { .. }
        | Meaning::ObjectOf { .. } => None,
    }
}

fn and_solve(side: SolvePart, name: u32, meaning: Meaning) -> Result<SolvePart, NoMemory>
    ensures { IfOk result (λ s. solve_part s ≡ spec.and_solve first_one (solve_part side) name meaning) }
{
    let fault = earlier(side.fault, solve_fault(name, meaning));
    Ok(SolvePart {
        trees: and_more(side.trees, solve_tree(meaning))?,
        fault,
    })
}

/// One more name. By the grammar there are only paths.
fn solve_path(side: SolvePart, e: &Expr, names: &NameSpace<'_, '_>) -> Result<SolvePart, NoMemory>
    requires vars { length names.now.vars.now.entries < 2 ^ 32 }
    requires loops { length names.now.loops.now < 2 ^ 32 }
    ensures { IfOk result (λ s. solve_part s ≡ spec.solve_path first_one (space_of names.now) (solve_part side) (expr_tree e.now)) }
{
    match e {
        Expr::Path {
            at,
            scope,
            names: path,
            ..
        } => {
            let path = path.as_slice();
            let found = names.look(*scope, path);
            and_solve(side, last_name(*at, path), found.meaning)
        }
        Expr::Select { last: None, .. } | Expr::Select { last: Some(_), .. } => Ok(side),
        Expr::Number { .. } | Expr::Unary { .. } | Expr::Binary { .. } => Ok(side),
        Expr::Choice { .. } | Expr::Inside { .. } | Expr::Join { .. } => Ok(side),
        Expr::Copies { .. } | Expr::Sign { .. } => Ok(side),
        Expr::Paren { .. } | Expr::Reduce { .. } => Ok(side),
    }
}

/// The names on one side of `before`.
fn solve_list(
    alloc: Global,
    list: &[Expr],
    names: &NameSpace<'_, '_>,
) -> Result<SolvePart, NoMemory>
    requires vars { length names.now.vars.now.entries < 2 ^ 32 }
    requires loops { length names.now.loops.now < 2 ^ 32 }
    ensures { IfOk result (λ s. solve_part s ≡ spec.solve_list first_one (space_of names.now) (spec.no_names first_one) (expr_trees list.now)) }
{
    let mut side = SolvePart {
        trees: Some(Items::new(alloc)),
        fault: None,
    };
    for e in list {
        side = solve_path(side, e, names)?;
    }
    Ok(side)
}

fn both_sides(first: SolvePart, later: SolvePart) -> ItemPart
    ensures { item_part result ≡ spec.solve_item first_one (solve_part first) (solve_part later) }
{
    ItemPart {
        tree: tree::solve(first.trees, later.trees),
        fault: earlier(first.fault, later.fault),
    }
}

/// `solve first before later` (IEEE 1800-2017, 18.5.10). Both name scalar properties that are declared `rand`.
pub fn solve_item(
    alloc: Global,
    first: &[Expr],
    later: &[Expr],
    names: &NameSpace<'_, '_>,
) -> Result<ItemPart, NoMemory>
    requires vars { length names.now.vars.now.entries < 2 ^ 32 }
    requires loops { length names.now.loops.now < 2 ^ 32 }
    ensures { IfOk result (λ p. item_part p ≡ spec.solve_item first_one (spec.solve_list first_one (space_of names.now) (spec.no_names first_one) (expr_trees first.now)) (spec.solve_list first_one (space_of names.now) (spec.no_names first_one) (expr_trees later.now))) }
{
    let (first, later) = both(
        solve_list(alloc, first, names),
        solve_list(alloc, later, names),
    )?;
    Ok(both_sides(first, later))
}
