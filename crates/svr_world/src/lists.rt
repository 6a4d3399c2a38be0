// Lists by place. A place outside takes nothing.

ghost use Rattle.std.specs.Prelude.{◌≡◌, true, false, map, slice_index_or, slice_set, [], OnOk, IfOk};
ghost use Rattle.svr_world.specs.World.{initial_numbers, with_length, with_mode, with_lists};

use crate::change::{Change, Replacement};
use crate::memory::push;
use sqlite_items::Items;
use std::alloc::Global;
use svr_typed::{ArrayKind, NoMemory, Prop};

/// The list at a place, the empty one outside.
pub fn list_at(lists: &[Items<u64>], at: u32) -> &[u64]
    ensures { result.now ≡ slice_index_or lists.now at [] }
{
    match lists.get(at as usize) {
        Some(list) => list.as_slice(),
        None => &[],
    }
}

/// The mode at a place, off outside.
pub fn mode_at(modes: &[bool], at: u32) -> bool
    ensures { result ≡ slice_index_or modes.now at false }
{
    match modes.get(at as usize) {
        Some(mode) => *mode,
        None => false,
    }
}

/// The list at a place is with_lists.
pub fn set_list(lists: &mut Vec<Items<u64>>, at: u32, list: Items<u64>)
    ensures { lists.new.items ≡ slice_set lists.old.items at list }
{
    if let Some(place) = lists.get_mut(at as usize) {
        *place = list;
    }
}

/// One number of the list at a place is with_lists.
pub fn set_number(lists: &mut Vec<Items<u64>>, at: u32, index: u32, value: u64)
    ensures { lists.new.items ≡ slice_set lists.old.items at (slice_set (slice_index_or lists.old.items at []) index value) }
{
    if let Some(list) = lists.get_mut(at as usize) {
        if (index as usize) < list.len() {
            list.set(index as usize, value);
        }
    }
}

/// Replaces the lists of the named properties.
#[tactic(auto, using(crate::proofs::Kept::with_lists_last))]
fn replace(lists: &mut Vec<Items<u64>>, named: Items<Replacement>)
    ensures { lists.new.items ≡ with_lists lists.old.items named }
{
    let mut rest = named;
    while let Some(one) = rest.pop() {
        set_list(lists, one.prop, one.numbers);
    }
}

/// Replaces the lists that a change names, among the numbers and among the used values.
pub fn apply(values: &mut Vec<Items<u64>>, used: &mut Vec<Items<u64>>, change: Change)
    ensures values { values.new.items ≡ with_lists values.old.items change.values }
    ensures used { used.new.items ≡ with_lists used.old.items change.used }
{
    replace(values, change.values);
    replace(used, change.used);
}

/// Switches one mode, or all.
pub fn switch(modes: &mut Vec<bool>, at: Option<u32>, on: bool)
    ensures { modes.new.items ≡ with_mode modes.old.items at on }
{
    match at {
        Some(at) => {
            if let Some(mode) = modes.get_mut(at as usize) {
                *mode = on;
            }
        }
        None => switch_all(modes, on),
    }
}

fn switch_all(modes: &mut Vec<bool>, on: bool)
    ensures { modes.new.items ≡ map (λ m. on) modes.old.items }
{
    for at in 0..modes.len() {
        modes[at] = on;
    }
}

/// The first `n` numbers, and zeros where there are fewer.
pub fn with_length(alloc: Global, numbers: &[u64], n: u32) -> Result<Items<u64>, NoMemory>
    ensures { IfOk result (λ list. list ≡ with_length n numbers.now) }
{
    let mut list = Vec::from_slice(alloc, numbers)?;
    list.resize(n as usize, 0)?;
    Ok(Items::from_vec(list))
}

/// What a property has when its object is made.
fn initial_numbers(alloc: Global, prop: &Prop) -> Result<Items<u64>, NoMemory>
    ensures { IfOk result (λ numbers. numbers ≡ initial_numbers prop.now.array prop.now.first) }
{
    match prop.array {
        ArrayKind::Scalar => Ok(Items::from_slice(alloc, &[prop.first])?),
        ArrayKind::Fixed(count) => {
            let zeros = vec![in alloc; 0; count as usize]?;
            Ok(Items::from_vec(zeros))
        }
        ArrayKind::Dynamic => Ok(Items::new(alloc)),
    }
}

/// The initial numbers of each property.
pub fn initial_values(alloc: Global, props: &[Prop]) -> Result<Vec<Items<u64>>, NoMemory>
    ensures { IfOk result (λ values. values.items ≡ map (λ p. initial_numbers p.array p.first) props.now) }
{
    let mut values = Vec::with_capacity(alloc, props.len())?;
    for prop in props {
        let numbers = initial_numbers(alloc, prop)?;
        push(&mut values, numbers)?;
    }
    Ok(values)
}

/// A mode that is on for each part.
pub fn all_on<T>(alloc: Global, parts: &[T]) -> Result<Vec<bool>, NoMemory>
    ensures { IfOk result (λ modes. modes.items ≡ map (λ x. true) parts.now) }
{
    let modes = vec![in alloc; true; parts.len()]?;
    Ok(modes)
}

/// An empty list for each property.
pub fn nothing_used(alloc: Global, props: &[Prop]) -> Result<Vec<Items<u64>>, NoMemory>
    ensures { IfOk result (λ used. used.items ≡ map (λ p. []) props.now) }
{
    let mut used = Vec::with_capacity(alloc, props.len())?;
    for prop in props {
        // One for each, whatever it is.
        let _ = prop;
        push(&mut used, Items::new(alloc))?;
    }
    Ok(used)
}
