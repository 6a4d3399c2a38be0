// What a call takes of its object: the state, the random set, and the active items (IEEE 1800-2017, 18.7 to 18.9 and 18.11).

ghost use Rattle.std.specs.Prelude.{◌≡◌, ◌==◌, ◌||◌, ℕ, ◌≤◌, ◌<◌, ◌^◌, ◌++◌, false, nat_eq, IfOk, OnOk, map, length};
ghost use Rattle.std.specs.List.{list_any, range_with_len, All};
ghost use Rattle.std.specs.HashSet.{contains};
ghost use Rattle.svr_typed.specs.ItemTerm.{item_terms};
ghost use Rattle.svr_typed.specs.ClassTerm.{block_terms};
ghost use Rattle.svr_limits.specs.declared.limit.TheConstants.{PROPERTY_LIMIT};
ghost use Rattle.svr_world.specs.World.{object_of};
ghost use Rattle.svr_world.specs.Fits.{IsShort};
ghost use Rattle.svr_frame.specs.Making as spec;
ghost use Rattle.svr_frame_of.specs.Callable.{state_of};

use crate::held::{beside, both};
use crate::parts::{copy_list, copy_numbers};
use sqlite_items::Items;
use std::alloc::Global;
use std::collections::HashSet;
use svr_eval::Assign;
use svr_flat::copy_item;
use svr_operator::Rand;
use svr_typed::{CallList, NoMemory, Prop, TBlock, TItem};
use svr_world::World;

fn lengths(alloc: Global, lists: &[Items<u64>]) -> Result<Items<u32>, NoMemory>
    requires { All IsShort lists.now }
    ensures { IfOk result (λ sizes. sizes ≡ map length lists.now) }
{
    let mut sizes = Items::new(alloc);
    for list in lists {
        sizes.push(list.len() as u32)?;
    }
    Ok(sizes)
}

/// The state in which a call on an object begins: its numbers, the sizes of its arrays, and the script's variables.
pub(crate) fn state_of(alloc: Global, world: &World, object: u32) -> Result<Assign, NoMemory>
    ensures { IfOk result (λ state. state ≡ state_of world.now object) }
{
    let lists = world.values(object);
    let numbers = both(copy_list(alloc, lists), lengths(alloc, lists));
    let script = copy_numbers(alloc, world.script());
    let ((values, sizes), script) = both(numbers, script)?;
    Ok(Assign {
        values,
        sizes,
        script,
    })
}

fn is_declared_random(rand: Rand) -> bool
    ensures { result ≡ spec.is_declared_random rand }
{
    match rand {
        Rand::State => false,
        Rand::Rand | Rand::Randc => true,
    }
}

/// The properties that are declared random and switched on (IEEE 1800-2017, 18.8).
#[tactic(auto, using(crate::proofs::Steps::switched_turn))]
fn switched_on(
    alloc: Global,
    props: &[Prop],
    world: &World,
    object: u32,
) -> Result<Items<bool>, NoMemory>
    requires { length props.now ≤ PROPERTY_LIMIT }
    ensures { IfOk result (λ random. random ≡ spec.switched_on props.now (object_of world.now object).rand_modes) }
{
    let mut random = Items::new(alloc);
    for (place, prop) in props.iter().enumerate() {
        let on = world.prop_mode(object, place as u32);
        random.push(is_declared_random(prop.rand) && on)?;
    }
    Ok(random)
}

fn none_of(alloc: Global, props: &[Prop]) -> Result<Items<bool>, NoMemory>
    ensures { IfOk result (λ random. random ≡ map (λ p. false) props.now) }
{
    let mut random = Items::new(alloc);
    for prop in props {
        // One for each, whatever it is.
        let _ = prop;
        random.push(false)?;
    }
    Ok(random)
}

fn insert(set: &mut HashSet<u32>, prop: u32) -> Result<(), NoMemory>
    ensures { OnOk result ((q : ℕ) → contains nat_eq set.new q ≡ (contains nat_eq set.old q || (prop == q))) }
{
    match set.insert(prop) {
        Ok(_) => Ok(()),
        Err(_) => Err(NoMemory),
    }
}

fn has(set: &HashSet<u32>, prop: u32) -> bool
    ensures { result ≡ contains nat_eq set.now prop }
{
    set.contains(&prop)
}

fn set_of(alloc: Global, listed: &[u32]) -> Result<HashSet<u32>, NoMemory>
    ensures { IfOk result (λ set. (q : ℕ) → contains nat_eq set q ≡ list_any (λ p. p == q) listed.now) }
{
    let mut set = HashSet::new(alloc);
    for prop in listed {
        insert(&mut set, *prop)?;
    }
    Ok(set)
}

/// The listed properties, whatever is switched on (IEEE 1800-2017, 18.11).
fn listed_of(alloc: Global, props: &[Prop], listed: &[u32]) -> Result<Items<bool>, NoMemory>
    requires { length props.now ≤ PROPERTY_LIMIT }
    ensures { IfOk result (λ random. random ≡ map (λ p. list_any (λ q. q == p) listed.now) (range_with_len 0 (length props.now))) }
{
    let set = set_of(alloc, listed)?;
    let mut random = Items::new(alloc);
    for prop in 0..props.len() as u32 {
        random.push(has(&set, prop))?;
    }
    Ok(random)
}

/// The properties that are random in a call (IEEE 1800-2017, 18.8 and 18.11).
pub(crate) fn random_set(
    alloc: Global,
    props: &[Prop],
    list: &CallList,
    world: &World,
    object: u32,
) -> Result<Items<bool>, NoMemory>
    requires { length props.now ≤ PROPERTY_LIMIT }
    ensures { IfOk result (λ random. random ≡ spec.random_set props.now (object_of world.now object).rand_modes list.now) }
{
    match list {
        CallList::All => switched_on(alloc, props, world, object),
        CallList::Null => none_of(alloc, props),
        CallList::Listed(listed) => listed_of(alloc, props, listed.as_slice()),
    }
}

fn append(alloc: Global, items: &[TItem], out: &mut Items<TItem>) -> Result<(), NoMemory>
    ensures { OnOk result (out.new ≡ out.old ++ items.now) }
{
    for item in items {
        out.push(copy_item(alloc, item)?)?;
    }
    Ok(())
}

/// The list with copies of these items behind it.
fn appended(alloc: Global, list: Items<TItem>, items: &[TItem]) -> Result<Items<TItem>, NoMemory>
    ensures { IfOk result (λ longer. longer ≡ list ++ items.now) }
{
    let mut list = list;
    let made = append(alloc, items, &mut list);
    let (longer, _) = beside(list, made)?;
    Ok(longer)
}

/// The items of the blocks that are switched on, and then those of the call (IEEE 1800-2017, 18.7 and 18.9).
pub(crate) fn active_items(
    alloc: Global,
    blocks: &[TBlock],
    in_line: &[TItem],
    world: &World,
    object: u32,
) -> Result<Items<TItem>, NoMemory>
    requires { length blocks.now < 2 ^ 32 }
    ensures { IfOk result (λ items. item_terms items ≡ spec.active_items (block_terms blocks.now) (object_of world.now object).block_modes (item_terms in_line.now)) }
{
    let mut active = Items::new(alloc);
    for (place, block) in blocks.iter().enumerate() {
        if world.block_mode(object, place as u32) {
            active = appended(alloc, active, block.items.as_slice())?;
        }
    }
    let whole = appended(alloc, active, in_line)?;
    Ok(whole)
}
