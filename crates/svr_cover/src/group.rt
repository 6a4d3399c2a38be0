// Groups.

ghost use Rattle.std.specs.Prelude.{◌≡◌};
ghost use Rattle.svr_cover.specs.Sampling as spec;

use crate::counters::count;
use crate::point::{Point, count_points};
use crate::tuple::count_tuples;
use sqlite_items::Items;

/// A cross (IEEE 1800-2017, 19.6): the counter of its first tuple, and the places of its points in their group, from the last to the first.
#[derive(Drop)]
pub struct Cross {
    pub first: u32,
    pub points: Items<u32>,
}

/// A group (IEEE 1800-2017, 19.3): the class that it samples, the counter of its samples, its points and its crosses.
#[derive(Drop)]
pub struct Group {
    pub class: u32,
    pub samples: u32,
    pub points: Items<Point>,
    pub crosses: Items<Cross>,
}

/// One more at each tuple of each cross whose bins have the sample's values.
fn count_crosses(
    counts: &mut Items<u64>,
    points: &[Point],
    values: &[Items<u64>],
    crosses: &[Cross],
)
    ensures { counts.new ≡ spec.counted_crosses points.now values.now counts.old crosses.now }
{
    let mut left = crosses;
    'crosses: while let Some((cross, others)) = left.split_first() {
        count_tuples(counts, points, values, cross.first, cross.points.as_slice());
        left = others;
    }
}

impl Group {
    /// Counts a sample of the class of the group.
    fn count(&self, counts: &mut Items<u64>, values: &[Items<u64>])
        ensures { counts.new ≡ spec.counted_group values.now counts.old self.now }
    {
        let points = self.points.as_slice();
        count(counts, self.samples as usize);
        count_points(counts, points, values);
        count_crosses(counts, points, values, self.crosses.as_slice());
    }

    /// Counts a sample, if it is of the class of the group.
    fn take(&self, counts: &mut Items<u64>, class: u32, values: &[Items<u64>])
        ensures { counts.new ≡ spec.taken class values.now counts.old self.now }
    {
        if self.class == class {
            self.count(counts, values);
        }
    }
}

/// Counts a sample in each group of its class.
pub(crate) fn sample(counts: &mut Items<u64>, groups: &[Group], class: u32, values: &[Items<u64>])
    ensures { counts.new ≡ spec.sampled class values.now counts.old groups.now }
{
    let mut left = groups;
    'groups: while let Some((group, others)) = left.split_first() {
        group.take(counts, class, values);
        left = others;
    }
}
