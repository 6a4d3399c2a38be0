// What a class orders by the blocks that it inherits: gathered from the class up, in the time that the items and the names of the blocks of all classes above it take together.

ghost use Rattle.std.specs.Prelude.{◌≡◌, ◌||◌, ◌++◌, ◌∷◌, ℕ, List, [], map, reverse, slice_get, IfOk, OnOk};
ghost use Rattle.std.specs.List.{list_any};
ghost use Rattle.svr_token.specs.Names.{names_of};
ghost use Rattle.svr_elab_names.specs.Names.{is_same};
ghost use Rattle.svr_elab_names.specs.Tables.{bytes_of, class_of};
ghost use Rattle.svr_elab_block.specs.Blocks as spec;
ghost use Rattle.svr_elab_block.specs.Chain as chain_spec;
ghost use Rattle.svr_elab_block.specs.Chain.{all_orders};

use crate::part::ClassOrders;
use indexmap::IndexSet;
use sqlite_items::Items;
use std::alloc::Global;
use svr_elab_names::ClassNames;
use svr_elab_order::Order;
use svr_token::Names;
use svr_typed::NoMemory;

/// Whether a name is among these.
#[tactic(auto, using(svr_elab_names::proofs::Entries::is_among))]
pub(crate) fn is_among(names: &IndexSet<&[u8]>, name: &[u8]) -> bool
    ensures { result ≡ list_any (is_same name.now) (map bytes_of names.now.keys) }
{
    names.contains(name)
}

/// One more name, unless it is there.
pub(crate) fn with_name<'a>(names: &mut IndexSet<&'a [u8]>, name: &'a [u8]) -> Result<(), NoMemory>
    ensures { OnOk result (map bytes_of names.new.keys ≡ spec.and_name (map bytes_of names.old.keys) name.now) }
{
    match names.insert(name) {
        Ok(_) => Ok(()),
        Err(_) => Err(NoMemory),
    }
}

/// The class that a class extends.
pub(crate) fn base_of(classes: &[ClassNames<'_>], class: usize) -> Option<u32>
    ensures { result ≡ spec.base_of (slice_get (map class_of classes.now) class) }
{
    match classes.get(class) {
        Some(class) => class.base,
        None => None,
    }
}

fn copied(alloc: Global, order: &Order) -> Result<Order, NoMemory>
    ensures { IfOk result (λ o. o ≡ order.now) }
{
    Ok(Order {
        block: order.block,
        at: order.at,
        first: Items::from_slice(alloc, order.first.as_slice())?,
        later: Items::from_slice(alloc, order.later.as_slice())?,
    })
}

/// One more item, a copy.
fn and_copy(alloc: Global, orders: &mut Vec<Order>, order: &Order) -> Result<(), NoMemory>
    ensures { OnOk result (orders.new.items ≡ orders.old.items ++ order.now ∷ []) }
{
    match orders.push(copied(alloc, order)?) {
        Ok(()) => Ok(()),
        Err(_) => Err(NoMemory),
    }
}

/// More items, copies of these.
pub(crate) fn and_copies(
    alloc: Global,
    orders: &mut Vec<Order>,
    more: &[Order],
) -> Result<(), NoMemory>
    ensures { OnOk result (orders.new.items ≡ orders.old.items ++ more.now) }
{
    for order in more {
        and_copy(alloc, orders, order)?;
    }
    Ok(())
}

/// One more item, unless a block of one of these names takes the place of its block.
fn and_kept(
    alloc: Global,
    orders: &mut Vec<Order>,
    order: &Order,
    own: &IndexSet<&[u8]>,
    names: Names<'_>,
) -> Result<(), NoMemory>
    ensures { OnOk result (orders.new.items ≡ spec.and_kept (names_of names.entry) (map bytes_of own.now.keys) orders.old.items order.now) }
{
    if is_among(own, names.name(order.block)) {
        return Ok(());
    }
    and_copy(alloc, orders, order)
}

/// What stands of these items, from the last one back.
fn and_back(
    alloc: Global,
    back: &mut Vec<Order>,
    orders: &[Order],
    own: &IndexSet<&[u8]>,
    names: Names<'_>,
) -> Result<(), NoMemory>
    ensures { OnOk result (reverse back.new.items ≡ spec.without (names_of names.entry) (map bytes_of own.now.keys) [] orders.now ++ reverse back.old.items) }
{
    let mut left = orders.len();
    while left > 0 {
        left -= 1;
        and_kept(alloc, back, &orders[left], own, names)?;
    }
    Ok(())
}

/// What stands of a class' own items, from the last one back; nothing where there is no such class.
fn and_class_back(
    alloc: Global,
    back: &mut Vec<Order>,
    chain: &[ClassOrders<'_>],
    class: u32,
    own: &IndexSet<&[u8]>,
    names: Names<'_>,
) -> Result<(), NoMemory>
    ensures { OnOk result (reverse back.new.items ≡ spec.without (names_of names.entry) (map bytes_of own.now.keys) [] (chain_spec.own_of (slice_get chain.now class)) ++ reverse back.old.items) }
{
    match chain.get(class as usize) {
        None => Ok(()),
        Some(class) => and_back(alloc, back, class.own.as_slice(), own, names),
    }
}

/// More names, each once.
fn with_names<'a>(names: &mut IndexSet<&'a [u8]>, more: &[&'a [u8]]) -> Result<(), NoMemory>
    ensures { OnOk result ((q : List ℕ) → list_any (is_same q) (map bytes_of names.new.keys) ≡ (list_any (is_same q) (map bytes_of names.old.keys) || list_any (is_same q) (map bytes_of more.now))) }
{
    for name in more {
        with_name(names, *name)?;
    }
    Ok(())
}

/// The names of a class' own blocks too; none where there is no such class.
fn and_class_names<'a>(
    names: &mut IndexSet<&'a [u8]>,
    chain: &[ClassOrders<'a>],
    class: u32,
) -> Result<(), NoMemory>
    ensures { OnOk result ((q : List ℕ) → list_any (is_same q) (map bytes_of names.new.keys) ≡ (list_any (is_same q) (map bytes_of names.old.keys) || list_any (is_same q) (chain_spec.named_of (slice_get chain.now class)))) }
{
    match chain.get(class as usize) {
        None => Ok(()),
        Some(class) => with_names(names, class.named.as_slice()),
    }
}

/// The base of a class, where it stands before the class.
fn base_before(chain: &[ClassOrders<'_>], class: u32) -> Option<u32>
    ensures { result ≡ chain_spec.base_before chain.now class }
{
    match chain.get(class as usize) {
        Some(own) => match own.base {
            Some(base) if base < class => Some(base),
            Some(_) => None,
            None => None,
        },
        None => None,
    }
}

/// How much there is to look at in a class: itself, its own items, and the names of its blocks.
fn size_of(chain: &[ClassOrders<'_>], class: u32) -> usize {
    match chain.get(class as usize) {
        None => 0,
        Some(class) => {
            let items = class.own.len().saturating_add(class.named.len());
            items.saturating_add(1)
        }
    }
}

/// What a class inherits, and how much was looked at for it.
#[derive(Drop)]
pub(crate) struct Gathered {
    pub orders: Vec<Order>,
    pub seen: usize,
}

/// What a class inherits of what its base orders, from the last item back. `own`: the names of its blocks.
fn inherited_back<'a>(
    alloc: Global,
    chain: &[ClassOrders<'a>],
    base: Option<u32>,
    own: &IndexSet<&'a [u8]>,
    names: Names<'_>,
) -> Result<Gathered, NoMemory>
    ensures { IfOk result (λ g. reverse g.orders.items ≡ chain_spec.inherited (names_of names.entry) (all_orders (names_of names.entry) chain.now) base (map bytes_of own.now.keys)) }
{
    let mut replaced = IndexSet::new(alloc);
    with_names(&mut replaced, own.as_slice())?;
    let mut back = Vec::new(alloc);
    let mut seen: usize = 0;
    let mut next = base;
    'up: while let Some(at) = next {
        and_class_back(alloc, &mut back, chain, at, &replaced, names)?;
        and_class_names(&mut replaced, chain, at)?;
        seen = seen.saturating_add(size_of(chain, at));
        next = base_before(chain, at);
    }
    Ok(Gathered { orders: back, seen })
}

/// What a class inherits of what its base orders. `own`: the names of its blocks.
pub(crate) fn inherited<'a>(
    alloc: Global,
    chain: &[ClassOrders<'a>],
    base: Option<u32>,
    own: &IndexSet<&'a [u8]>,
    names: Names<'_>,
) -> Result<Gathered, NoMemory>
    ensures { IfOk result (λ g. g.orders.items ≡ chain_spec.inherited (names_of names.entry) (all_orders (names_of names.entry) chain.now) base (map bytes_of own.now.keys)) }
{
    let mut gathered = inherited_back(alloc, chain, base, own, names)?;
    gathered.orders.reverse();
    Ok(gathered)
}
