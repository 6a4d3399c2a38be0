// The bins of a point (IEEE 1800-2017, 19.5).

ghost use Rattle.std.specs.Prelude.{◌≡◌, ◌≤◌, ◌+◌, [], map, Some, MatchResult, IfOk, IfErr};
ghost use Rattle.svr_token.specs.Names.{names_of};
ghost use Rattle.svr_cover_checked.specs.declared.limits.TheConstants.{MOST_BINS};
ghost use Rattle.svr_cover_checked.specs.Numbers.{first_of};
ghost use Rattle.svr_cover_checked.specs.Refusals as spec;
ghost use Rattle.svr_cover_checked.specs.Tables.{found_in};

use crate::fault::{CoverFault, keep, unless};
use crate::limits::MOST_BINS;
use crate::names::{Places, places_of};
use crate::ranges::{bins_count, check_ranges};
use sqlite_items::Items;
use std::alloc::Global;
use svr_cover_text::BinsText;
use svr_refusal::Refusal;
use svr_token::Names;

/// The names of `bins`.
fn bins_names(alloc: Global, bins: &[BinsText]) -> Result<Items<u32>, CoverFault>
    ensures names { IfOk result (λ ns. ns ≡ map spec.bins_name bins.now) }
    ensures memory { IfErr result (λ e. e ≡ CoverFault.NoMemory) }
{
    let mut done = Items::new(alloc);
    let mut left = bins;
    'bins: while let Some((one, others)) = left.split_first() {
        keep(&mut done, one.name)?;
        left = others;
    }
    Ok(done)
}

/// How many bins `bins` are, up to one more than there may be.
pub(crate) fn all_count(names: Names<'_>, bins: &[BinsText]) -> u64
    ensures is { result ≡ spec.all_count (names_of names.entry) 0 bins.now }
    ensures near { result ≤ MOST_BINS + 1 }
{
    let mut count: u64 = 0;
    let mut left = bins;
    'bins: while let Some((one, others)) = left.split_first() {
        count = (count + bins_count(names, one)).min(MOST_BINS + 1);
        left = others;
    }
    count
}

/// Errors: `DoubleCover` and `TooManyBins` at the name of a `bins`, `BadBins` at one of its ranges.
fn check_one(
    places: &Places<'_, '_>,
    at: usize,
    count: u64,
    one: &BinsText,
) -> Result<(), CoverFault>
    requires { count ≤ MOST_BINS + 1 }
    ensures { let rs = spec.one_refusals (names_of places.now.names) (found_in places.now.table.now.entries) at count one.now in MatchResult result (λ _. rs ≡ []) (λ e. first_of rs ≡ Some e) }
{
    places.first(at, one.name)?;
    unless(
        count + bins_count(places.names, one) <= MOST_BINS,
        Refusal::TooManyBins,
        one.name,
    )?;
    check_ranges(places.names, one.each, one.ranges.as_slice())
}

/// Errors: the first of each `bins` in their order.
fn check_each(places: &Places<'_, '_>, bins: &[BinsText]) -> Result<(), CoverFault>
    ensures { let rs = spec.bins_refusals (names_of places.now.names) (found_in places.now.table.now.entries) 0 0 bins.now in MatchResult result (λ _. rs ≡ []) (λ e. first_of rs ≡ Some e) }
{
    let mut at: usize = 0;
    let mut count: u64 = 0;
    let mut left = bins;
    'bins: while let Some((one, others)) = left.split_first() {
        check_one(places, at, count, one)?;
        count = (count + bins_count(places.names, one)).min(MOST_BINS + 1);
        left = others;
        at += 1;
    }
    Ok(())
}

/// Errors: the first of the `bins` of a point.
pub(crate) fn check_bins(
    alloc: Global,
    names: Names<'_>,
    bins: &[BinsText],
) -> Result<(), CoverFault>
    ensures { let rs = spec.all_bins_refusals (names_of names.entry) bins.now in MatchResult result (λ _. rs ≡ []) (λ e. spec.IsFirst e rs) }
{
    let tokens = bins_names(alloc, bins)?;
    let table = places_of(alloc, names, tokens.as_slice())?;
    let places = Places {
        names,
        table: &table,
    };
    check_each(&places, bins)
}
