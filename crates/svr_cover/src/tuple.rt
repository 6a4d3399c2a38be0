// Tuples of a cross (IEEE 1800-2017, 19.6).

ghost use Rattle.std.specs.Prelude.{◌≡◌, slice_index};
ghost use Rattle.svr_cover.specs.Tuples as spec;

use crate::counters::count;
use crate::point::{Point, bins_in, hits_in};
use sqlite_items::Items;

/// A tuple on the way from its last point to its first: its number among the tuples of the points that are gone through, how many such tuples there are, and what is left of the number that names it among the tuples of a sample.
#[derive(Clone, Copy)]
struct Way {
    number: usize,
    scale: usize,
    rest: usize,
}

/// The remainder, 0 where it is by 0.
fn digit(number: usize, many: usize) -> usize
    ensures { result ≡ spec.digit number many }
{
    if many == 0 { 0 } else { number % many }
}

/// The quotient, 0 where it is by 0.
fn share(number: usize, many: usize) -> usize
    ensures { result ≡ spec.share number many }
{
    if many == 0 { 0 } else { number / many }
}

/// The bin at a place, 0 outside.
fn bin_at(bins: &[u32], at: usize) -> u32
    ensures { result ≡ slice_index bins.now at }
{
    match bins.get(at) {
        Some(bin) => *bin,
        None => 0,
    }
}

impl Way {
    /// One point further: it has so many bins, and these of them have its value.
    fn further(self, bins: u32, hits: &[u32]) -> Way
        ensures { result ≡ spec.further self bins hits.now }
    {
        let bin = bin_at(hits, digit(self.rest, hits.len())) as usize;
        Way {
            number: self.number.saturating_add(self.scale.saturating_mul(bin)),
            scale: self.scale.saturating_mul(bins as usize),
            rest: share(self.rest, hits.len()),
        }
    }
}

/// The number, among all tuples of a cross, of one of the tuples of bins that have a sample's values: the last point is the fastest. `cross` has the points from the last to the first.
fn tuple_at(points: &[Point], values: &[Items<u64>], cross: &[u32], place: usize) -> usize
    ensures { result ≡ spec.tuple_at points.now values.now cross.now place }
{
    let mut way = Way {
        number: 0,
        scale: 1,
        rest: place,
    };
    let mut left = cross;
    'points: while let Some((point, others)) = left.split_first() {
        way = way.further(bins_in(points, *point), hits_in(points, values, *point));
        left = others;
    }
    way.number
}

/// How many tuples of bins have a sample's values.
fn tuples_hit(points: &[Point], values: &[Items<u64>], cross: &[u32]) -> usize
    ensures { result ≡ spec.tuples_hit points.now values.now 1 cross.now }
{
    let mut many: usize = 1;
    let mut left = cross;
    'points: while let Some((point, others)) = left.split_first() {
        many = many.saturating_mul(hits_in(points, values, *point).len());
        left = others;
    }
    many
}

/// One more at each tuple of bins that have a sample's values. The first tuple has the counter `first`.
#[tactic(auto, using(crate::proofs::Turns::one_tuple))]
pub(crate) fn count_tuples(
    counts: &mut Items<u64>,
    points: &[Point],
    values: &[Items<u64>],
    first: u32,
    cross: &[u32],
)
    ensures { counts.new ≡ spec.counted_cross points.now values.now first counts.old cross.now }
{
    for place in 0..tuples_hit(points, values, cross) {
        let tuple = tuple_at(points, values, cross, place);
        count(counts, tuple.saturating_add(first as usize));
    }
}
