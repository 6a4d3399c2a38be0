// Two lists of steps in one.

ghost use Rattle.std.specs.Prelude.{◌≡◌, ◌<◌, ℕ, true, length, IfOk};
ghost use Rattle.svr_cover_steps.specs.Steps.{bins_at as spec_bins_at, IsRising};
ghost use Rattle.svr_cover_union.specs.Union as spec;

use sqlite_items::{Items, at};
use std::alloc::{AllocError, Global};
use svr_cover_steps::{Step, Steps, bins_at};

/// The first list, or the second where the first is empty.
fn either<'a>(first: &'a [u32], second: &'a [u32]) -> &'a [u32]
    ensures { result.now ≡ spec.joined true first.now second.now }
{
    if first.is_empty() { second } else { first }
}

/// The bins of one value in two lists: of two ranges of one bin those of either, else those of both.
fn joined(
    alloc: Global,
    same: bool,
    first: &[u32],
    second: &[u32],
) -> Result<Items<u32>, AllocError>
    ensures { IfOk result (λ bins. bins ≡ spec.joined same first.now second.now) }
{
    if same {
        return Items::from_slice(alloc, either(first, second));
    }
    let mut bins = Items::from_slice(alloc, first)?;
    bins.append(Items::from_slice(alloc, second)?)?;
    Ok(bins)
}

/// Where the step at a place begins.
fn start_at(steps: &[Step], place: usize) -> Option<u64>
    ensures { result ≡ spec.start_at steps.now place }
{
    match at(steps, place) {
        Some(step) => Some(step.from),
        None => None,
    }
}

fn lower(a: u64, b: u64) -> Option<u64>
    ensures { result ≡ spec.lower a b }
{
    if a <= b { Some(a) } else { Some(b) }
}

/// The lower of two starts.
fn earlier(first: Option<u64>, second: Option<u64>) -> Option<u64>
    ensures { result ≡ spec.earlier first second }
{
    match first {
        None => second,
        Some(a) => match second {
            None => first,
            Some(b) => lower(a, b),
        },
    }
}

/// Whether the step at a place begins there.
fn begins_at(steps: &[Step], place: usize, start: u64) -> bool
    ensures is { result ≡ spec.begins_at steps.now place start }
    ensures within { result ≡ true → place < length steps.now }
{
    match at(steps, place) {
        Some(step) => step.from == start,
        None => false,
    }
}

/// The place behind a step, if it begins there.
fn behind(steps: &[Step], place: usize, start: u64) -> usize
    ensures { result ≡ spec.behind steps.now place start }
{
    if begins_at(steps, place, start) {
        place + 1
    } else {
        place
    }
}

/// The lower of the next starts of two lists.
fn next_start(first: &[Step], second: &[Step], i: usize, j: usize) -> Option<u64>
    ensures { result ≡ spec.next_start first.now second.now i j }
{
    earlier(start_at(first, i), start_at(second, j))
}

/// The step at a start: the bins that have it in either list.
fn step_at(
    alloc: Global,
    same: bool,
    first: &[Step],
    second: &[Step],
    start: u64,
) -> Result<Step, AllocError>
    requires first { IsRising first.now }
    requires second { IsRising second.now }
    ensures { IfOk result (λ s. s ≡ spec.step_at same first.now second.now start) }
{
    let bins = joined(alloc, same, bins_at(first, start), bins_at(second, start))?;
    Ok(Step { from: start, bins })
}

/// Two lists gone through up to a place in each, and the steps that are made.
#[derive(Drop)]
struct Way {
    done: Items<Step>,
    i: usize,
    j: usize,
}

/// One start further.
fn further(
    alloc: Global,
    same: bool,
    first: &[Step],
    second: &[Step],
    way: Way,
    start: u64,
) -> Result<Way, AllocError>
    requires first { IsRising first.now }
    requires second { IsRising second.now }
    ensures { IfOk result (λ w. w ≡ spec.further same first.now second.now way start) }
{
    let i = behind(first, way.i, start);
    let j = behind(second, way.j, start);
    let mut done = way.done;
    let step = step_at(alloc, same, first, second, start)?;
    done.push(step)?;
    Ok(Way { done, i, j })
}

/// The steps of two lists, start by start.
fn walked(
    alloc: Global,
    same: bool,
    first: &[Step],
    second: &[Step],
) -> Result<Items<Step>, AllocError>
    requires first { IsRising first.now }
    requires second { IsRising second.now }
    ensures rising { IfOk result (λ r. IsRising r) }
    ensures bins { IfOk result (λ r. (v : ℕ) → spec_bins_at r v ≡ spec.joined same (spec_bins_at first.now v) (spec_bins_at second.now v)) }
{
    let mut way = Way {
        done: Items::new(alloc),
        i: 0,
        j: 0,
    };
    'starts: loop {
        match next_start(first, second, way.i, way.j) {
            None => return Ok(way.done),
            Some(start) => {
                let next = further(alloc, same, first, second, way, start)?;
                way = next;
            }
        }
    }
}

/// One list of steps for two: the bins of a value are those of both lists, or where both have one bin those of either.
pub(crate) fn both(
    alloc: Global,
    same: bool,
    first: &Steps,
    second: &Steps,
) -> Result<Steps, AllocError>
    ensures { IfOk result (λ r. (v : ℕ) → spec_bins_at r v ≡ spec.joined same (spec_bins_at first.now v) (spec_bins_at second.now v)) }
{
    let steps = walked(alloc, same, first.as_slice(), second.as_slice())?;
    Ok(Steps::new(steps))
}
