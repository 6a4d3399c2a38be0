// The values of a cyclic property in the order in which they are tried (IEEE 1800-2017, 18.4.2).

ghost use Rattle.std.specs.Prelude.{◌≡◌, ◌==◌, ◌||◌, ◌<◌, ◌≤◌, ◌%◌, ◌^◌, ℕ, not, nat_eq, IfOk, OnOk};
ghost use Rattle.std.specs.List.{range_with_len};
ghost use Rattle.std.specs.HashSet.{contains};
ghost use Rattle.svr_frame.specs.Frame.{frame_term, width_of, members_of_enum, domain_of};
ghost use Rattle.svr_phase.specs.Cyclic as spec;
ghost use Rattle.svr_phase.specs.Cyclic.{is_among};

use crate::memory::NoMemory;
use std::alloc::Global;
use std::collections::HashSet;
use svr_frame::Frame;

/// How many numbers have so many bits.
fn count_of(width: u8) -> u128
    requires { width ≤ 64 }
    ensures { result ≡ 2 ^ width }
{
    1 << width
}

/// All numbers of so many bits.
fn numbers(alloc: Global, width: u8) -> Result<Vec<u64>, NoMemory>
    requires { width ≤ 64 }
    ensures { IfOk result (λ values. values.items ≡ range_with_len 0 (2 ^ width)) }
{
    let mut values = Vec::new(alloc);
    for value in 0..count_of(width) {
        let number = value as u64;
        values.push(number)?;
    }
    Ok(values)
}

/// The values of the members of an enum, in declaration order (IEEE 1800-2017, 6.19).
fn members(alloc: Global, frame: &Frame, named: u32) -> Result<Vec<u64>, NoMemory>
    ensures { IfOk result (λ values. values.items ≡ members_of_enum (frame_term frame.now) named) }
{
    let mut values = Vec::new(alloc);
    for member in 0..frame.enum_size(named) {
        values.push(frame.enum_value(named, member))?;
    }
    Ok(values)
}

/// The values that a property can take, in order: the members of its enum, or all stored bits.
fn domain(alloc: Global, frame: &Frame, prop: u32) -> Result<Vec<u64>, NoMemory>
    requires { width_of (frame_term frame.now) prop ≤ 64 }
    ensures { IfOk result (λ values. values.items ≡ domain_of (frame_term frame.now) prop) }
{
    match frame.enum_of(prop) {
        Some(named) => members(alloc, frame, named),
        None => numbers(alloc, frame.width(prop)),
    }
}

/// Adds a value to a set.
fn insert(set: &mut HashSet<u64>, value: u64) -> Result<(), NoMemory>
    ensures { OnOk result ((q : ℕ) → contains nat_eq set.new q ≡ (contains nat_eq set.old q || (value == q))) }
{
    match set.insert(value) {
        Ok(_) => Ok(()),
        Err(_) => Err(NoMemory),
    }
}

/// These values as a set.
fn set_of(alloc: Global, values: &[u64]) -> Result<HashSet<u64>, NoMemory>
    ensures { IfOk result (λ set. (q : ℕ) → contains nat_eq set q ≡ is_among q values.now) }
{
    let mut set = HashSet::new(alloc);
    for value in values {
        insert(&mut set, *value)?;
    }
    Ok(set)
}

/// Whether a value is none of the set.
fn is_left(set: &HashSet<u64>, value: u64) -> bool
    ensures { result ≡ not (contains nat_eq set.now value) }
{
    !set.contains(&value)
}

/// The values of a domain that are not used, in its order.
fn unused(alloc: Global, used: &[u64], domain: &[u64]) -> Result<Vec<u64>, NoMemory>
    ensures { IfOk result (λ left. left.items ≡ spec.unused used.now domain.now) }
{
    let set = set_of(alloc, used)?;
    let mut left = Vec::new(alloc);
    for value in domain {
        if is_left(&set, *value) {
            left.push(*value)?;
        }
    }
    Ok(left)
}

/// The place that a word names among so many.
fn place_of(word: u64, count: u64) -> u64
    requires { 0 < count }
    ensures place { result ≡ word % count }
    ensures within { result < count }
{
    word % count
}

/// Turns a list, so that it begins at the place that the word names.
fn turn(values: &mut Vec<u64>, word: u64)
    ensures { values.new.items ≡ spec.turned word values.old.items }
{
    let count = values.len() as u64;
    if count == 0 {
        return;
    }
    values.rotate_left(place_of(word, count) as usize);
}

/// The values that are tried for a property: first the unused ones, then, in a new cycle, the whole domain.
#[derive(Drop)]
pub(crate) struct Trials {
    pub unused: Vec<u64>,
    pub domain: Vec<u64>,
}

/// The values that are tried for a property, both lists from the place of the same word.
pub(crate) fn trials_of(
    alloc: Global,
    frame: &Frame,
    prop: u32,
    used: &[u64],
    word: u64,
) -> Result<Trials, NoMemory>
    requires { width_of (frame_term frame.now) prop ≤ 64 }
    ensures unused { IfOk result (λ r. r.unused.items ≡ spec.turned word (spec.unused used.now (domain_of (frame_term frame.now) prop))) }
    ensures domain { IfOk result (λ r. r.domain.items ≡ spec.turned word (domain_of (frame_term frame.now) prop)) }
{
    let mut whole = domain(alloc, frame, prop)?;
    let mut left = unused(alloc, used, whole.as_slice())?;
    turn(&mut left, word);
    turn(&mut whole, word);
    Ok(Trials {
        unused: left,
        domain: whole,
    })
}
