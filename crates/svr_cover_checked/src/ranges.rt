// The numbers of a `bins` (IEEE 1800-2017, 19.5.1).

ghost use Rattle.std.specs.Prelude.{◌≡◌, ◌≤◌, ◌+◌, [], Some, take, length, MatchResult};
ghost use Rattle.std.specs.List.{list_any};
ghost use Rattle.svr_token.specs.Names.{names_of};
ghost use Rattle.svr_cover_checked.specs.declared.limits.TheConstants.{MOST_BINS};
ghost use Rattle.svr_cover_checked.specs.Numbers as spec;
ghost use Rattle.svr_cover_checked.specs.Numbers.{first_of};

use crate::fault::{CoverFault, unless};
use crate::limits::MOST_BINS;
use crate::numbers::value;
use svr_cover_text::{BinsText, NumText, RangeText};
use svr_refusal::Refusal;
use svr_token::Names;

/// Where 0 stands among the numbers that may be written, the lowest of which is -(2^32 - 1).
pub const ZERO: u64 = 4_294_967_296;

/// Where a number stands among those that may be written.
fn level(names: Names<'_>, num: NumText) -> u64
    ensures is { result ≡ spec.level_of (names_of names.entry) num }
    ensures near { result ≤ 8589934591 }
{
    let digits = u64::from(value(names.name(num.digits)));
    if num.negative {
        ZERO - digits
    } else {
        ZERO + digits
    }
}

/// Where the lower bound of a range stands among the numbers that may be written. A single number is both bounds.
pub fn low(names: Names<'_>, range: RangeText) -> u64
    ensures is { result ≡ spec.low_of (names_of names.entry) range }
    ensures near { result ≤ 8589934591 }
{
    level(names, range.low)
}

/// Where the upper bound of a range stands among the numbers that may be written.
pub fn high(names: Names<'_>, range: RangeText) -> u64
    ensures is { result ≡ spec.high_of (names_of names.entry) range }
    ensures near { result ≤ 8589934591 }
{
    match range.high {
        None => level(names, range.low),
        Some(high) => level(names, high),
    }
}

/// Whether a range has no numbers.
fn is_empty(names: Names<'_>, range: RangeText) -> bool
    ensures { result ≡ spec.is_empty (names_of names.entry) range }
{
    high(names, range) < low(names, range)
}

/// How many numbers from one up to another.
fn distance(low: u64, high: u64) -> u64
    requires { high ≤ 8589934591 }
    ensures is { result ≡ spec.distance low high }
    ensures near { result ≤ 8589934592 }
{
    if high < low { 0 } else { high - low + 1 }
}

/// How many numbers a range has.
pub fn size(names: Names<'_>, range: RangeText) -> u64
    ensures is { result ≡ spec.size_of (names_of names.entry) range }
    ensures near { result ≤ 8589934592 }
{
    distance(low(names, range), high(names, range))
}

/// Whether some number is in both ranges, the first of which has one.
fn overlap(names: Names<'_>, range: RangeText, other: RangeText) -> bool
    ensures { result ≡ spec.overlap (names_of names.entry) range other }
{
    !is_empty(names, other)
        && low(names, range) <= high(names, other)
        && low(names, other) <= high(names, range)
}

/// Whether some number of a range is in one of others.
fn overlap_any(names: Names<'_>, range: RangeText, others: &[RangeText]) -> bool
    ensures { result ≡ list_any (spec.overlap (names_of names.entry) range) others.now }
{
    others.iter().any(|other| overlap(names, range, *other))
}

/// Whether a range may stand behind others of its `bins`.
fn fits(names: Names<'_>, each: bool, earlier: &[RangeText], range: RangeText) -> bool
    ensures { result ≡ spec.fits (names_of names.entry) each earlier.now range }
{
    !is_empty(names, range) && !(each && overlap_any(names, range, earlier))
}

/// Errors: `BadBins` at the first range that has no numbers, or that has one of an earlier range where each number is a bin.
pub(crate) fn check_ranges(
    names: Names<'_>,
    each: bool,
    ranges: &[RangeText],
) -> Result<(), CoverFault>
    ensures { let rs = spec.ranges_refusals (names_of names.entry) each ranges.now 0 ranges.now in MatchResult result (λ _. rs ≡ []) (λ e. first_of rs ≡ Some e) }
{
    let mut left = ranges;
    let mut at: usize = 0;
    'walk: while let Some((range, others)) = left.split_first() {
        unless(
            fits(names, each, &ranges[..at], *range),
            Refusal::BadBins,
            range.at,
        )?;
        left = others;
        at += 1;
    }
    Ok(())
}

/// How many numbers ranges have, up to one more than there may be bins.
fn sizes(names: Names<'_>, ranges: &[RangeText]) -> u64
    ensures is { result ≡ spec.sizes (names_of names.entry) 0 ranges.now }
    ensures near { result ≤ MOST_BINS + 1 }
{
    let mut sum: u64 = 0;
    let mut left = ranges;
    'walk: while let Some((range, others)) = left.split_first() {
        sum = (sum + size(names, *range)).min(MOST_BINS + 1);
        left = others;
    }
    sum
}

/// How many bins a `bins` is, up to one more than there may be.
pub(crate) fn bins_count(names: Names<'_>, bins: &BinsText) -> u64
    ensures is { result ≡ spec.bins_count (names_of names.entry) bins.now }
    ensures near { result ≤ MOST_BINS + 1 }
{
    if bins.each {
        sizes(names, bins.ranges.as_slice())
    } else {
        1
    }
}
