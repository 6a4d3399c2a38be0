// The steps of ranges and of bins.

ghost use Rattle.std.specs.Prelude.{◌≡◌, ◌≤◌, ◌<◌, ◌+◌, ◌^◌, ◌∷◌, [], ℕ, true, false, length, IfOk};
ghost use Rattle.svr_cover_steps.specs.Steps.{bins_at};
ghost use Rattle.svr_cover_union.specs.Union as spec;

use crate::union::both;
use sqlite_items::Items;
use std::alloc::{AllocError, Global};
use svr_cover_steps::{Step, Steps};

/// Stored values, both bounds with it. It has none where the lower one is the greater.
#[derive(Clone, Copy, PartialEq, Eq)]
pub struct Range {
    pub low: u64,
    pub high: u64,
}

/// The steps without a bin.
fn nothing(alloc: Global) -> Steps
    ensures { result ≡ [] }
{
    Steps::new(Items::new(alloc))
}

/// One bin from a value on.
#[tactic(auto, using(crate::proofs::Made::rising_opened))]
fn opened(alloc: Global, low: u64, bin: u32) -> Result<Steps, AllocError>
    ensures { IfOk result (λ steps. steps ≡ spec.opened low bin) }
{
    let bins = Items::from_slice(alloc, &[bin])?;
    let mut steps = Items::new(alloc);
    steps.push(Step { from: low, bins })?;
    Ok(Steps::new(steps))
}

/// One bin from `low` up to `end`, which it has not.
#[tactic(auto, using(crate::proofs::Made::rising_closed))]
fn closed(alloc: Global, low: u64, end: u64, bin: u32) -> Result<Steps, AllocError>
    requires { low < end }
    ensures { IfOk result (λ steps. steps ≡ spec.closed low end bin) }
{
    let bins = Items::from_slice(alloc, &[bin])?;
    let mut steps = Items::new(alloc);
    steps.push(Step { from: low, bins })?;
    let bins = Items::new(alloc);
    steps.push(Step { from: end, bins })?;
    Ok(Steps::new(steps))
}

/// Whether a range has no values.
fn is_empty(range: Range) -> bool
    ensures yes { result ≡ true → range.high < range.low }
    ensures no { result ≡ false → range.low ≤ range.high }
{
    range.high < range.low
}

/// The steps of one range of a bin.
fn of_range(alloc: Global, range: Range, bin: u32) -> Result<Steps, AllocError>
    ensures { IfOk result (λ r. (v : ℕ) → v < 2 ^ 64 → bins_at r v ≡ spec.hits_of bin (range ∷ []) v) }
{
    if is_empty(range) {
        return Ok(nothing(alloc));
    }
    match range.high.checked_add(1) {
        Some(end) => closed(alloc, range.low, end, bin),
        None => opened(alloc, range.low, bin),
    }
}

/// The steps of a bin with one range at most.
fn of_few(alloc: Global, ranges: &[Range], bin: u32) -> Result<Steps, AllocError>
    requires { length ranges.now < 2 }
    ensures { IfOk result (λ r. (v : ℕ) → v < 2 ^ 64 → bins_at r v ≡ spec.hits_of bin ranges.now v) }
{
    match ranges.split_first() {
        None => Ok(nothing(alloc)),
        Some((range, _others)) => of_range(alloc, *range, bin),
    }
}

/// The steps of a bin with these ranges.
fn of_ranges(alloc: Global, ranges: &[Range], bin: u32) -> Result<Steps, AllocError>
    ensures { IfOk result (λ r. (v : ℕ) → v < 2 ^ 64 → bins_at r v ≡ spec.hits_of bin ranges.now v) }
{
    if ranges.len() < 2 {
        return of_few(alloc, ranges, bin);
    }
    let (front, back) = ranges.split_at(ranges.len() / 2);
    let first = of_ranges(alloc, front, bin)?;
    let second = of_ranges(alloc, back, bin)?;
    both(alloc, true, &first, &second)
}

/// The steps of one bin at most, which has the number `from`.
fn of_one(alloc: Global, bins: &[Items<Range>], from: u32) -> Result<Steps, AllocError>
    requires { length bins.now < 2 }
    ensures { IfOk result (λ r. (v : ℕ) → v < 2 ^ 64 → bins_at r v ≡ spec.hits_from from bins.now v) }
{
    match bins.split_first() {
        None => Ok(nothing(alloc)),
        Some((ranges, _others)) => of_ranges(alloc, ranges.as_slice(), from),
    }
}

/// The steps of bins, the first of which has the number `from`: each value has, in rising order, the bins one of whose ranges has it.
pub fn of_bins(alloc: Global, bins: &[Items<Range>], from: u32) -> Result<Steps, AllocError>
    requires { from + length bins.now ≤ 2 ^ 32 }
    ensures { IfOk result (λ r. (v : ℕ) → v < 2 ^ 64 → bins_at r v ≡ spec.hits_from from bins.now v) }
{
    if bins.len() < 2 {
        return of_one(alloc, bins, from);
    }
    let (front, back) = bins.split_at(bins.len() / 2);
    let first = of_bins(alloc, front, from)?;
    let second = of_bins(alloc, back, from + front.len() as u32)?;
    both(alloc, false, &first, &second)
}
