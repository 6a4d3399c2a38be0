// The counters of all groups behind a run.

ghost use Rattle.std.specs.Prelude.{◌≡◌, IfOk};
ghost use Rattle.svr_cover.specs.Cover as spec;

use crate::counters::zeros;
use crate::group::{Group, sample};
use sqlite_items::Items;
use std::alloc::Global;
use svr_typed::NoMemory;
use svr_world::Watch;

/// The most samples that are counted.
pub const MOST_SAMPLES: u64 = 4_294_967_296;

/// Groups, their counters, and how many samples can still be taken.
#[derive(Drop)]
pub struct Cover {
    groups: Items<Group>,
    counts: Items<u64>,
    left: u64,
}

impl Cover {
    /// Groups with so many counters, all 0, before the first of 2^32 samples.
    pub fn new(alloc: Global, groups: Items<Group>, counters: u32) -> Result<Cover, NoMemory>
        ensures { IfOk result (λ c. c ≡ spec.unsampled groups counters) }
    {
        match zeros(alloc, counters) {
            Ok(counts) => Ok(Cover {
                groups,
                counts,
                left: MOST_SAMPLES,
            }),
            Err(error) => Err(error),
        }
    }

    /// The groups, with the places of their counters.
    pub fn groups(&self) -> &[Group]
        ensures { result.now ≡ self.now.groups }
    {
        self.groups.as_slice()
    }

    /// The counters, one behind the other: how many samples each has, at most 2^64 - 1.
    pub fn counts(&self) -> &[u64]
        ensures { result.now ≡ self.now.counts }
    {
        self.counts.as_slice()
    }
}

impl Watch for Cover {
    ghost use Rattle.svr_cover.specs.Cover.{CoverTerm, cover_term, cover_step};

    ghost Content = { CoverTerm };

    ghost content = { λ c. cover_term c };

    ghost step = { λ c class values. cover_step c class values };

    ghost left = { λ c. c.left };

    fn after_one(&mut self, class: u32, values: &[Items<u64>]) {
        sample(&mut self.counts, self.groups.as_slice(), class, values);
        self.left -= 1;
    }
}
