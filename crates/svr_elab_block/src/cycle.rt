// The first of a class' own `solve` items with which it orders a property before itself (IEEE 1800-2017, 18.5.10).

ghost use Rattle.std.specs.Prelude.{◌≡◌, ◌++◌, ℕ, List, Some, None, take, drop, map, option_map, IfOk};
ghost use Rattle.std.specs.Rc.{rc_value};
ghost use Rattle.svr_token.specs.Names.{names_of};
ghost use Rattle.svr_elab_fault.specs.Refusals as faults;
ghost use Rattle.svr_elab_fault.specs.Refusals.{first_one};
ghost use Rattle.svr_elab_names.specs.Tables.{bytes_of};
ghost use Rattle.svr_elab_order.specs.Cycles.{cycles};
ghost use Rattle.svr_elab_block.specs.Blocks as spec;
ghost use Rattle.svr_elab_block.specs.Chain as chain_spec;
ghost use Rattle.svr_elab_block.specs.Chain.{all_orders, class_orders, is_agreed, ranks_in, AreRanks, AreRanked};

use crate::inherit::{and_copies, inherited};
use crate::part::ClassOrders;
use indexmap::IndexSet;
use sqlite_items::Items;
use std::alloc::Global;
use std::rc::Rc;
use svr_elab_fault::Fault;
use svr_elab_order::{Order, Ranks, are_behind, cycle_fault, ranks_of};
use svr_token::Names;
use svr_typed::NoMemory;

/// Ranks that items agree with, where they are known, and the first refusal of an item that closes a cycle.
#[derive(Drop)]
struct Found {
    ranks: Option<Rc<Ranks>>,
    fault: Option<Fault>,
}

/// What a class orders, and the first refusal of one of its own items that closes a cycle.
#[derive(Drop)]
pub(crate) struct CycleCheck<'a> {
    pub class: ClassOrders<'a>,
    pub fault: Option<Fault>,
}

/// A class: its number, that of its base, and ranks for each family to begin with, at the number of the class that all of it extend.
#[derive(Clone, Copy)]
pub(crate) struct ClassAt<'s> {
    pub number: usize,
    pub base: Option<u32>,
    pub families: &'s [Option<Rc<Ranks>>],
}

/// Ranks for one class and those that extend it.
fn owned(alloc: Global, ranks: Ranks) -> Result<Option<Rc<Ranks>>, NoMemory>
    ensures { IfOk result (λ r. option_map rc_value r ≡ Some ranks) }
{
    match Rc::new(alloc, ranks) {
        Ok(ranks) => Ok(Some(ranks)),
        Err(_) => Err(NoMemory),
    }
}

/// The same ranks, for one class more.
fn shared(ranks: &Option<Rc<Ranks>>) -> Result<Option<Rc<Ranks>>, NoMemory>
    ensures { IfOk result (λ r. option_map rc_value r ≡ option_map rc_value ranks.now) }
{
    match ranks {
        None => Ok(None),
        Some(ranks) => Ok(Some(ranks.clone()?)),
    }
}

/// Ranks for a class that extends none.
fn first_ranks(
    alloc: Global,
    families: &[Option<Rc<Ranks>>],
    class: usize,
) -> Result<Option<Rc<Ranks>>, NoMemory> {
    match families.get(class) {
        Some(Some(ranks)) => Ok(Some(ranks.clone()?)),
        Some(None) | None => owned(alloc, Ranks::by_number(alloc)),
    }
}

/// Ranks that all that a class inherits agrees with, where they are known.
fn inherited_ranks(
    alloc: Global,
    chain: &[ClassOrders<'_>],
    at: ClassAt<'_>,
) -> Result<Option<Rc<Ranks>>, NoMemory>
    ensures { (text : ℕ → List ℕ) → AreRanked text chain.now → IfOk result (λ r. AreRanks (option_map rc_value r) (spec.orders_at (all_orders text chain.now) at.entry.base)) }
{
    let Some(base) = at.base else {
        return first_ranks(alloc, at.families, at.number);
    };
    match chain.get(base as usize) {
        None => Ok(None),
        Some(class) => shared(&class.ranks),
    }
}

/// Whether items agree with ranks that are known.
fn do_agree(ranks: &Option<Rc<Ranks>>, orders: &[Order]) -> bool
    ensures { result ≡ is_agreed (option_map rc_value ranks.now) orders.now }
{
    match ranks {
        None => false,
        Some(ranks) => ranks.as_ref().agree(orders),
    }
}

/// What is known of items by looking at all of them, of which the first `given` are inherited.
fn of_all(alloc: Global, orders: &[Order], given: usize) -> Result<Found, NoMemory>
    ensures ranks { IfOk result (λ v. AreRanks (option_map rc_value v.ranks) orders.now) }
    ensures fault { IfOk result (λ v. v.fault ≡ cycles first_one (take given orders.now) (drop given orders.now)) }
{
    match ranks_of(alloc, orders)? {
        Some(ranks) => {
            let ranks = owned(alloc, ranks)?;
            Ok(Found { ranks, fault: None })
        }
        None => {
            let fault = cycle_fault(alloc, orders, given)?;
            Ok(Found { ranks: None, fault })
        }
    }
}

/// What a class orders where nothing that it inherits is looked at.
fn unlooked<'a>(
    base: Option<u32>,
    named: IndexSet<&'a [u8]>,
    own: Items<Order>,
    ranks: Option<Rc<Ranks>>,
) -> CycleCheck<'a>
    ensures base { result.class.base ≡ base }
    ensures named { result.class.named ≡ named.entry }
    ensures own { result.class.own ≡ own }
    ensures ranks { result.class.ranks ≡ ranks }
    ensures fault { result.fault ≡ None }
{
    let class = ClassOrders {
        base,
        named,
        own,
        ranks,
    };
    CycleCheck { class, fault: None }
}

/// What a class orders, by looking at all that it inherits. That is kept in its own items where more was looked at than twice what stands, so that no class behind it looks at the same again.
fn of_class<'a>(
    alloc: Global,
    chain: &[ClassOrders<'a>],
    base: Option<u32>,
    named: IndexSet<&'a [u8]>,
    own: Items<Order>,
    names: Names<'_>,
) -> Result<CycleCheck<'a>, NoMemory>
    ensures orders { IfOk result (λ v. class_orders (names_of names.entry) (all_orders (names_of names.entry) chain.now) v.class ≡ chain_spec.inherited (names_of names.entry) (all_orders (names_of names.entry) chain.now) base (map bytes_of named.entry.keys) ++ own) }
    ensures ranks { IfOk result (λ v. AreRanks (ranks_in v.class) (chain_spec.inherited (names_of names.entry) (all_orders (names_of names.entry) chain.now) base (map bytes_of named.entry.keys) ++ own)) }
    ensures fault { IfOk result (λ v. v.fault ≡ cycles first_one (chain_spec.inherited (names_of names.entry) (all_orders (names_of names.entry) chain.now) base (map bytes_of named.entry.keys)) own) }
{
    let gathered = inherited(alloc, chain, base, &named, names)?;
    let given = gathered.orders.len();
    let few = given < gathered.seen / 2;
    let mut all = gathered.orders;
    and_copies(alloc, &mut all, own.as_slice())?;
    let found = of_all(alloc, all.as_slice(), given)?;
    let (base, own) = if few {
        (None, Items::from_vec(all))
    } else {
        (base, own)
    };
    let class = ClassOrders {
        base,
        named,
        own,
        ranks: found.ranks,
    };
    Ok(CycleCheck {
        class,
        fault: found.fault,
    })
}

/// What a class orders: by the ranks of its base where its own items agree with these, and else by looking at all that it inherits; but no refusal of theirs is told where they all stand behind the one `before`.
pub(crate) fn of_own<'a>(
    alloc: Global,
    chain: &[ClassOrders<'a>],
    at: ClassAt<'_>,
    named: IndexSet<&'a [u8]>,
    own: Items<Order>,
    before: Option<Fault>,
    names: Names<'_>,
) -> Result<CycleCheck<'a>, NoMemory>
    requires { AreRanked (names_of names) chain.now }
    ensures orders { IfOk result (λ v. class_orders (names_of names.entry) (all_orders (names_of names.entry) chain.now) v.class ≡ chain_spec.inherited (names_of names.entry) (all_orders (names_of names.entry) chain.now) at.entry.base (map bytes_of named.entry.keys) ++ own) }
    ensures ranks { IfOk result (λ v. AreRanks (ranks_in v.class) (chain_spec.inherited (names_of names.entry) (all_orders (names_of names.entry) chain.now) at.entry.base (map bytes_of named.entry.keys) ++ own)) }
    ensures fault { IfOk result (λ v. faults.earlier before v.fault ≡ faults.earlier before (cycles first_one (chain_spec.inherited (names_of names.entry) (all_orders (names_of names.entry) chain.now) at.entry.base (map bytes_of named.entry.keys)) own)) }
{
    let ranks = inherited_ranks(alloc, chain, at)?;
    if do_agree(&ranks, own.as_slice()) {
        return Ok(unlooked(at.base, named, own, ranks));
    }
    drop(ranks);
    if are_behind(before, own.as_slice()) {
        return Ok(unlooked(at.base, named, own, None));
    }
    of_class(alloc, chain, at.base, named, own, names)
}
