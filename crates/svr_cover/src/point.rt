// Points of a group.

ghost use Rattle.std.specs.Prelude.{◌≡◌};
ghost use Rattle.svr_cover.specs.Points as spec;

use crate::counters::{count_each, number_of};
use sqlite_items::{Items, at};
use svr_cover_steps::Steps;

/// A point (IEEE 1800-2017, 19.5): its property, the counter of its first bin, how many bins it has, and which of them have a value.
#[derive(Drop)]
pub struct Point {
    pub prop: u32,
    pub first: u32,
    pub bins: u32,
    pub steps: Steps,
}

impl Point {
    /// The bins that have the point's value in a sample.
    fn hits(&self, values: &[Items<u64>]) -> &[u32]
        ensures { result.now ≡ spec.hits_of values.now self.now }
    {
        self.steps.bins_at(number_of(values, self.prop))
    }
}

/// The bins of the point at a place that have its value in a sample, none where there is no such point.
pub(crate) fn hits_in<'a>(points: &'a [Point], values: &[Items<u64>], place: u32) -> &'a [u32]
    ensures { result.now ≡ spec.hits_in points.now values.now place }
{
    match at(points, place as usize) {
        Some(point) => point.hits(values),
        None => &[],
    }
}

/// How many bins the point at a place has, 0 where there is no such point.
pub(crate) fn bins_in(points: &[Point], place: u32) -> u32
    ensures { result ≡ spec.bins_in points.now place }
{
    match at(points, place as usize) {
        Some(point) => point.bins,
        None => 0,
    }
}

/// One more at each bin of each point that has its value.
pub(crate) fn count_points(counts: &mut Items<u64>, points: &[Point], values: &[Items<u64>])
    ensures { counts.new ≡ spec.counted_points values.now counts.old points.now }
{
    let mut left = points;
    'points: while let Some((point, others)) = left.split_first() {
        count_each(counts, point.first, point.hits(values));
        left = others;
    }
}
