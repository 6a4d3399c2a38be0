// What the classes of a family order together: those that extend one class, over any number of others.

ghost use Rattle.std.specs.Prelude.{◌<◌, ◌≤◌, ◌^◌, length};

use crate::inherit::base_of;
use crate::place::in_class;
use crate::solve::and_orders;
use sqlite_items::Items;
use std::alloc::Global;
use std::rc::Rc;
use svr_elab_names::{NameSpace, Region};
use svr_elab_order::{Order, Ranks, ranks_of};
use svr_tree::{ClassDecl, ClassItem};
use svr_typed::NoMemory;

/// The number of the class that all of a class' family extend. `roots`: that of each class before it.
fn root_of(roots: &[usize], base: Option<u32>, class: usize) -> usize {
    let Some(base) = base else {
        return class;
    };
    match roots.get(base as usize) {
        None => class,
        Some(root) => *root,
    }
}

/// What the blocks of a class order, behind these.
fn and_class_orders(
    alloc: Global,
    orders: &mut Items<Order>,
    class: &ClassDecl,
    names: &NameSpace<'_, '_>,
) -> Result<(), NoMemory>
    requires vars { length names.now.vars.now.entries < 2 ^ 32 }
    requires loops { length names.now.loops.now < 2 ^ 32 }
{
    for item in class.items.as_slice() {
        if let ClassItem::Constraint(block) = item {
            and_orders(alloc, orders, block.items.as_slice(), block.name, names)?;
        }
    }
    Ok(())
}

/// What all classes of a family order, at the number of the class that all of them extend.
fn family_orders(
    alloc: Global,
    classes: &[ClassDecl],
    names: &NameSpace<'_, '_>,
) -> Result<Vec<Items<Order>>, NoMemory>
    requires classes { length classes.now ≤ length names.now.classes.now }
    requires vars { length names.now.vars.now.entries < 2 ^ 32 }
    requires loops { length names.now.loops.now < 2 ^ 32 }
{
    let mut roots = Items::new(alloc);
    let mut families = Vec::new(alloc);
    for number in 0..classes.len() {
        let root = root_of(roots.as_slice(), base_of(names.classes, number), number);
        roots.push(root)?;
        if families.push(Items::new(alloc)).is_err() {
            return Err(NoMemory);
        }
        if let Some(orders) = families.get_mut(root) {
            let inside = in_class(names, Region::Block, number);
            and_class_orders(alloc, orders, &classes[number], &inside)?;
        }
    }
    Ok(families)
}

/// Ranks that these agree with, where there are any to agree.
fn ranks_for(alloc: Global, orders: &[Order]) -> Result<Option<Rc<Ranks>>, NoMemory> {
    if orders.is_empty() {
        return Ok(None);
    }
    let Some(ranks) = ranks_of(alloc, orders)? else {
        return Ok(None);
    };
    match Rc::new(alloc, ranks) {
        Ok(ranks) => Ok(Some(ranks)),
        Err(_) => Err(NoMemory),
    }
}

/// Ranks for each family to begin with, at the number of the class that all of it extend: where all its classes together order no property before itself, they all agree with these. Nothing that is told of classes rests on them.
pub(crate) fn family_ranks(
    alloc: Global,
    classes: &[ClassDecl],
    names: &NameSpace<'_, '_>,
) -> Result<Items<Option<Rc<Ranks>>>, NoMemory>
    requires classes { length classes.now ≤ length names.now.classes.now }
    requires vars { length names.now.vars.now.entries < 2 ^ 32 }
    requires loops { length names.now.loops.now < 2 ^ 32 }
{
    let families = family_orders(alloc, classes, names)?;
    let mut all = Items::new(alloc);
    for orders in families.as_slice() {
        all.push(ranks_for(alloc, orders.as_slice())?)?;
    }
    Ok(all)
}
