// What the `solve` items of a block order (IEEE 1800-2017, 18.5.10).

ghost use Rattle.std.specs.Prelude.{◌≡◌, ◌<◌, ◌^◌, [], length, IfOk, OnOk};
ghost use Rattle.svr_tree.specs.ExprTree.{expr_tree, expr_trees};
ghost use Rattle.svr_tree.specs.ItemTree.{item_tree, item_trees};
ghost use Rattle.svr_elab_names.specs.Tables.{space_of};
ghost use Rattle.svr_elab_block.specs.Blocks as spec;

use sqlite_items::Items;
use std::alloc::Global;
use svr_elab_expr::both;
use svr_elab_form::pushed;
use svr_elab_names::{Meaning, NameSpace};
use svr_elab_order::Order;
use svr_tree::{Expr, Item};
use svr_typed::NoMemory;

/// The number of the property that a name in `solve` orders. The size of an array stands for it.
fn ordered_number(meaning: Meaning) -> Option<u32>
    ensures { result ≡ spec.ordered_number meaning }
{
    match meaning {
        Meaning::PropertyOf { property, .. } => Some(property.number),
        Meaning::SizeOf { property, .. } => Some(property.number),
        Meaning::Wrong { .. }
        | Meaning::LoopOf { .. }
        | Meaning::ItemOf { .. }
        | Meaning::MemberOf { .. }
        | Meaning::FoldOf { .. }
        | Meaning::VariableOf { .. }
        | Meaning::ObjectOf { .. } => None,
    }
}

/// The number of the property of a path. By the grammar there are only paths.
fn number_of(e: &Expr, names: &NameSpace<'_, '_>) -> Option<u32>
    requires vars { length names.now.vars.now.entries < 2 ^ 32 }
    requires loops { length names.now.loops.now < 2 ^ 32 }
    ensures { result ≡ spec.number_of (space_of names.now) (expr_tree e.now) }
{
    match e {
        Expr::Path {
            scope,
            names: path,
            ..
        } => ordered_number(names.look(*scope, path.as_slice()).meaning),
        Expr::Select { last: None, .. } | Expr::Select { last: Some(_), .. } => None,
        Expr::Number { .. } | Expr::Unary { .. } | Expr::Binary { .. } => None,
        Expr::Choice { .. } | Expr::Inside { .. } | Expr::Join { .. } => None,
        Expr::Copies { .. } | Expr::Sign { .. } => None,
        Expr::Paren { .. } | Expr::Reduce { .. } => None,
    }
}

fn and_number(numbers: Items<u32>, number: Option<u32>) -> Result<Items<u32>, NoMemory>
    ensures { IfOk result (λ ns. ns ≡ spec.and_number numbers number) }
{
    match number {
        None => Ok(numbers),
        Some(number) => pushed(numbers, number),
    }
}

/// The properties on one side of `before`, by their numbers.
fn numbers(alloc: Global, list: &[Expr], names: &NameSpace<'_, '_>) -> Result<Items<u32>, NoMemory>
    requires vars { length names.now.vars.now.entries < 2 ^ 32 }
    requires loops { length names.now.loops.now < 2 ^ 32 }
    ensures { IfOk result (λ ns. ns ≡ spec.numbers (space_of names.now) [] (expr_trees list.now)) }
{
    let mut numbers = Items::new(alloc);
    for e in list {
        numbers = and_number(numbers, number_of(e, names))?;
    }
    Ok(numbers)
}

/// What an item of the block of this name orders.
fn order_of(
    alloc: Global,
    item: &Item,
    block: u32,
    names: &NameSpace<'_, '_>,
) -> Result<Option<Order>, NoMemory>
    requires vars { length names.now.vars.now.entries < 2 ^ 32 }
    requires loops { length names.now.loops.now < 2 ^ 32 }
    ensures { IfOk result (λ o. o ≡ spec.order_of (space_of names.now) block (item_tree item.now)) }
{
    match item {
        Item::Solve { at, first, later } => {
            let first = numbers(alloc, first.as_slice(), names);
            let later = numbers(alloc, later.as_slice(), names);
            let (first, later) = both(first, later)?;
            Ok(Some(Order {
                block,
                at: *at,
                first,
                later,
            }))
        }
        Item::Plain { .. } | Item::Unique { .. } | Item::Implies { .. } => Ok(None),
        Item::Branch { no: None, .. } | Item::Branch { no: Some(_), .. } => Ok(None),
        Item::Foreach { .. } | Item::Disable { .. } => Ok(None),
    }
}

/// One more item, where there is one.
pub(crate) fn and_order(orders: &mut Items<Order>, order: Option<Order>) -> Result<(), NoMemory>
    ensures { OnOk result (orders.new ≡ spec.and_order orders.old order) }
{
    match order {
        None => Ok(()),
        Some(order) => {
            orders.push(order)?;
            Ok(())
        }
    }
}

/// What the items of a block order, behind what there is.
pub(crate) fn and_orders(
    alloc: Global,
    orders: &mut Items<Order>,
    items: &[Item],
    block: u32,
    names: &NameSpace<'_, '_>,
) -> Result<(), NoMemory>
    requires vars { length names.now.vars.now.entries < 2 ^ 32 }
    requires loops { length names.now.loops.now < 2 ^ 32 }
    ensures { OnOk result (orders.new ≡ spec.orders (space_of names.now) block orders.old (item_trees items.now)) }
{
    for item in items {
        let order = order_of(alloc, item, block, names)?;
        and_order(orders, order)?;
    }
    Ok(())
}
