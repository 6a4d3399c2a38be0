// Counters in one list.

ghost use Rattle.std.specs.Prelude.{◌≡◌, slice_index, slice_index_or, replicate, [], IfOk};
ghost use Rattle.svr_cover.specs.Counters as spec;

use sqlite_items::Items;
use std::alloc::Global;
use svr_typed::NoMemory;

/// The list at a place, the empty one outside.
fn list_at(lists: &[Items<u64>], at: u32) -> &[u64]
    ensures { result.now ≡ slice_index_or lists.now at [] }
{
    match lists.get(at as usize) {
        Some(list) => list.as_slice(),
        None => &[],
    }
}

/// The number at a place, 0 outside.
fn number_at(numbers: &[u64], at: usize) -> u64
    ensures { result ≡ slice_index numbers.now at }
{
    match numbers.get(at) {
        Some(number) => *number,
        None => 0,
    }
}

/// The number of a scalar property of a sample, as stored bits.
pub(crate) fn number_of(values: &[Items<u64>], prop: u32) -> u64
    ensures { result ≡ spec.number_of values.now prop }
{
    number_at(list_at(values, prop), 0)
}

/// So many counters, all 0.
pub(crate) fn zeros(alloc: Global, counters: u32) -> Result<Items<u64>, NoMemory>
    ensures { IfOk result (λ counts. counts ≡ replicate counters 0) }
{
    let numbers = vec![in alloc; 0; counters as usize]?;
    Ok(Items::from_vec(numbers))
}

/// One more at a counter, which stays at the greatest number there is; nothing outside of the list.
#[tactic(auto, using(std::proofs::lemmas::List::set_past))]
pub(crate) fn count(counts: &mut Items<u64>, at: usize)
    ensures { counts.new ≡ spec.counted counts.old at }
{
    if at < counts.len() {
        let number = number_at(counts.as_slice(), at);
        counts.set(at, number.saturating_add(1));
    }
}

/// One more at the counter of each of the bins, the first of which has the counter `first`.
pub(crate) fn count_each(counts: &mut Items<u64>, first: u32, bins: &[u32])
    ensures { counts.new ≡ spec.counted_from first counts.old bins.now }
{
    let mut left = bins;
    'bins: while let Some((bin, others)) = left.split_first() {
        count(counts, first as usize + *bin as usize);
        left = others;
    }
}
