// The stored values of bins.

ghost use Rattle.std.specs.Prelude.{◌≡◌, ◌≤◌, ◌^◌, ◌++◌, ◌∷◌, [], OnOk, IfOk};
ghost use Rattle.svr_token.specs.Names.{names_of};
ghost use Rattle.svr_cover_made.specs.Stored as spec;

use sqlite_items::Items;
use std::alloc::Global;
use svr_cover_checked::{ZERO, high, low, size};
use svr_cover_text::{BinsText, RangeText};
use svr_cover_union::Range;
use svr_token::Names;
use svr_typed::{NoMemory, NumType};

/// 2 to the power of so many.
#[tactic(auto, using(crate::proofs::Turns::power_low, crate::proofs::Turns::power_high))]
fn power(bits: u8) -> u128
    requires { bits ≤ 64 }
    ensures is { result ≡ 2 ^ bits }
    ensures low { 1 ≤ result }
    ensures high { result ≤ 18446744073709551616 }
{
    1 << bits
}

/// The greatest number of so many bits, of which there are at most 64.
fn last(bits: u8) -> u64
    ensures { result ≡ spec.last_of bits }
{
    (power(bits.min(64)) - 1) as u64
}

/// The greatest number of a type.
fn top(kind: NumType) -> u64
    ensures { result ≡ spec.top_of kind }
{
    if kind.signed {
        last(kind.width.saturating_sub(1))
    } else {
        last(kind.width)
    }
}

/// Of the numbers from one up to another those from 0 on.
fn upper(kind: NumType, low: u64, high: u64) -> Range
    ensures { result ≡ spec.upper kind low high }
{
    if high < ZERO {
        Range { low: 1, high: 0 }
    } else {
        Range {
            low: low.saturating_sub(ZERO),
            high: (high - ZERO).min(top(kind)),
        }
    }
}

/// The stored value of -1 - `number`.
fn minus(kind: NumType, number: u64) -> u64
    ensures { result ≡ spec.minus kind number }
{
    last(kind.width).saturating_sub(number)
}

/// Of the numbers from one up to another those below 0.
fn lower(kind: NumType, low: u64, high: u64) -> Range
    ensures { result ≡ spec.lower kind low high }
{
    if low < ZERO {
        Range {
            low: minus(kind, (ZERO - 1 - low).min(top(kind))),
            high: minus(kind, (ZERO - 1).saturating_sub(high)),
        }
    } else {
        Range { low: 1, high: 0 }
    }
}

/// Puts the stored values of the numbers from one up to another.
fn put_range(ranges: &mut Items<Range>, kind: NumType, low: u64, high: u64) -> Result<(), NoMemory>
    ensures { OnOk result (ranges.new ≡ spec.with_range kind ranges.old low high) }
{
    ranges.push(upper(kind, low, high))?;
    if kind.signed {
        ranges.push(lower(kind, low, high))?;
    }
    Ok(())
}

/// The stored values of one bin of these ranges.
fn one_bin(
    alloc: Global,
    names: Names<'_>,
    kind: NumType,
    written: &[RangeText],
) -> Result<Items<Range>, NoMemory>
    ensures { IfOk result (λ rs. rs ≡ spec.with_ranges (names_of names.entry) kind [] written.now) }
{
    let mut done = Items::new(alloc);
    let mut left = written;
    'written: while let Some((range, others)) = left.split_first() {
        put_range(&mut done, kind, low(names, *range), high(names, *range))?;
        left = others;
    }
    Ok(done)
}

/// The stored value of one number.
fn single(alloc: Global, kind: NumType, level: u64) -> Result<Items<Range>, NoMemory>
    ensures { IfOk result (λ rs. rs ≡ spec.with_range kind [] level level) }
{
    let mut ranges = Items::new(alloc);
    put_range(&mut ranges, kind, level, level)?;
    Ok(ranges)
}

/// A bin for each of so many numbers.
#[tactic(auto, using(crate::proofs::Turns::one_single))]
fn put_singles(
    alloc: Global,
    bins: &mut Items<Items<Range>>,
    kind: NumType,
    low: u64,
    many: u64,
) -> Result<(), NoMemory>
    requires low { low ≤ 8589934591 }
    requires many { many ≤ 8589934592 }
    ensures { OnOk result (bins.new ≡ spec.with_singles kind bins.old low many) }
{
    for number in 0..many {
        let one = single(alloc, kind, low + number)?;
        bins.push(one)?;
    }
    Ok(())
}

fn put_each(
    alloc: Global,
    names: Names<'_>,
    bins: &mut Items<Items<Range>>,
    kind: NumType,
    written: &[RangeText],
) -> Result<(), NoMemory>
    ensures { OnOk result (bins.new ≡ spec.with_each (names_of names.entry) kind bins.old written.now) }
{
    let mut left = written;
    'written: while let Some((range, others)) = left.split_first() {
        put_singles(alloc, bins, kind, low(names, *range), size(names, *range))?;
        left = others;
    }
    Ok(())
}

/// One more bin.
fn put_one(
    alloc: Global,
    names: Names<'_>,
    bins: &mut Items<Items<Range>>,
    kind: NumType,
    ranges: &[RangeText],
) -> Result<(), NoMemory>
    ensures { OnOk result (bins.new ≡ bins.old ++ spec.with_ranges (names_of names.entry) kind [] ranges.now ∷ []) }
{
    let one = one_bin(alloc, names, kind, ranges)?;
    bins.push(one)?;
    Ok(())
}

/// The bins of one `bins`.
fn put_bins(
    alloc: Global,
    names: Names<'_>,
    bins: &mut Items<Items<Range>>,
    kind: NumType,
    more: &BinsText,
) -> Result<(), NoMemory>
    ensures { OnOk result (bins.new ≡ spec.with_bins (names_of names.entry) kind bins.old more.now) }
{
    let ranges = more.ranges.as_slice();
    if more.each {
        put_each(alloc, names, bins, kind, ranges)
    } else {
        put_one(alloc, names, bins, kind, ranges)
    }
}

/// The stored values of the bins of a point, in their order, for a property of this type.
pub(crate) fn all_bins(
    alloc: Global,
    names: Names<'_>,
    kind: NumType,
    bins: &[BinsText],
) -> Result<Items<Items<Range>>, NoMemory>
    ensures { IfOk result (λ rs. rs ≡ spec.with_all_bins (names_of names.entry) kind [] bins.now) }
{
    let mut done = Items::new(alloc);
    let mut left = bins;
    'bins: while let Some((one, others)) = left.split_first() {
        put_bins(alloc, names, &mut done, kind, one)?;
        left = others;
    }
    Ok(done)
}
