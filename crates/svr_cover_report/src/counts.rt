// Counts.

ghost use Rattle.std.specs.Prelude.{◌≡◌, ◌≤◌, slice_index};
ghost use Rattle.svr_cover_report.specs.Report as spec;

/// The number of a counter, 0 where there is none.
fn number_at(counts: &[u64], place: usize) -> u64
    ensures { result ≡ slice_index counts.now place }
{
    match counts.get(place) {
        Some(count) => *count,
        None => 0,
    }
}

/// The count so far behind the first of some counters.
pub(crate) fn count_at(counts: &[u64], first: u32, place: usize) -> u64
    ensures { result ≡ spec.count_at counts.now first place }
{
    number_at(counts, place.saturating_add(first as usize))
}

/// 1 where a counter is not 0.
fn hit(count: u64) -> usize
    ensures is { result ≡ spec.hit count }
    ensures near { result ≤ 1 }
{
    if count == 0 { 0 } else { 1 }
}

/// How many of so many counters are not 0.
#[tactic(auto, using(crate::proofs::Turns::one_hit))]
pub(crate) fn hits(counts: &[u64], first: u32, many: usize) -> usize
    ensures { result ≡ spec.hits counts.now first many }
{
    let mut found: usize = 0;
    for place in 0..many {
        found += hit(count_at(counts, first, place));
    }
    found
}

/// The remainder, 0 where it is by 0.
pub(crate) fn digit(number: usize, many: usize) -> usize
    ensures { result ≡ spec.digit number many }
{
    if many == 0 { 0 } else { number % many }
}

/// The quotient, 0 where it is by 0.
pub(crate) fn share(number: usize, many: usize) -> usize
    ensures { result ≡ spec.share number many }
{
    if many == 0 { 0 } else { number / many }
}
