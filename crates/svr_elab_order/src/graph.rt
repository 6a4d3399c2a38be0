// The graph of `solve` items.

ghost use Rattle.std.specs.Prelude.{◌≡◌, ◌≤◌, ◌<◌, ◌^◌, ◌++◌, ◌∷◌, ◌||◌, ◌&&◌, ℕ, nat_eq, [], length, map, replicate, slice_index_or, slice_set, IfOk, OnOk};
ghost use Rattle.svr_elab_order.specs.Order.{is_in};
ghost use Rattle.svr_elab_order.specs.Graph.{AreNames, IsGraph, is_item_before, first_of};

use crate::order::Order;
use sqlite_items::Items;
use std::alloc::Global;
use svr_typed::NoMemory;

/// As many empty lists.
fn empty_lists(alloc: Global, count: usize) -> Result<Vec<Items<usize>>, NoMemory>
    ensures { IfOk result (λ ls. ls.items ≡ replicate count []) }
{
    let mut lists = Vec::new(alloc);
    for _list in 0..count {
        if lists.push(Items::new(alloc)).is_err() {
            return Err(NoMemory);
        }
    }
    Ok(lists)
}

/// One more number in the list at a place.
fn push_at(lists: &mut Vec<Items<usize>>, at: usize, number: usize) -> Result<(), NoMemory>
    ensures { OnOk result (lists.new.items ≡ slice_set lists.old.items at (slice_index_or lists.old.items at [] ++ number ∷ [])) }
{
    if let Some(list) = lists.get_mut(at) {
        list.push(number)?;
    }
    Ok(())
}

/// An item stands right before each of its later names.
fn put_before(lists: &mut Vec<Items<usize>>, later: &[u32], item: usize) -> Result<(), NoMemory>
    ensures length { OnOk result (length lists.new.items ≡ length lists.old.items) }
    ensures before { OnOk result ((u y : ℕ) → y < length lists.old.items → is_in u (slice_index_or lists.new.items y []) ≡ (is_in u (slice_index_or lists.old.items y []) || (nat_eq u item && is_in y later.now))) }
{
    for name in later {
        push_at(lists, *name as usize, item)?;
    }
    Ok(())
}

/// The items right before each property.
fn items_before(
    alloc: Global,
    orders: &[Order],
    names: usize,
) -> Result<Vec<Items<usize>>, NoMemory>
    requires { names ≤ 2 ^ 32 }
    ensures length { IfOk result (λ ls. length ls.items ≡ names) }
    ensures before { IfOk result (λ ls. (u y : ℕ) → y < names → is_in u (slice_index_or ls.items y []) ≡ is_item_before names orders.now u y) }
{
    let mut lists = empty_lists(alloc, names)?;
    let mut item = names;
    for order in orders {
        put_before(&mut lists, order.later.as_slice(), item)?;
        item += 1;
    }
    Ok(lists)
}

/// Numbers as nodes.
fn nodes_of(alloc: Global, numbers: &[u32]) -> Result<Items<usize>, NoMemory>
    ensures { IfOk result (λ ns. ns ≡ numbers.now) }
{
    let mut nodes = Items::new(alloc);
    for number in numbers {
        nodes.push(*number as usize)?;
    }
    Ok(nodes)
}

/// The first names of each item, behind these lists.
fn with_items(
    alloc: Global,
    lists: Vec<Items<usize>>,
    orders: &[Order],
) -> Result<Items<Items<usize>>, NoMemory>
    ensures { IfOk result (λ g. g ≡ lists.items ++ map first_of orders.now) }
{
    let mut graph = Items::from_vec(lists);
    for order in orders {
        graph.push(nodes_of(alloc, order.first.as_slice())?)?;
    }
    Ok(graph)
}

/// What stands right before each node: first the properties by their numbers below `names`, then the items.
pub(crate) fn graph(
    alloc: Global,
    orders: &[Order],
    names: usize,
) -> Result<Items<Items<usize>>, NoMemory>
    requires { names ≤ 2 ^ 32 }
    ensures { IfOk result (λ g. IsGraph names orders.now g) }
{
    let lists = items_before(alloc, orders, names)?;
    with_items(alloc, lists, orders)
}
