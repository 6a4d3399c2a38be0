// What is known of items.

ghost use Rattle.std.specs.Prelude.{◌≡◌, Some};
ghost use Rattle.svr_elab_names.specs.Names.{or_else, only_if};
ghost use Rattle.svr_elab_part.specs.Shapes.{is_open};
ghost use Rattle.svr_elab_part.specs.Seen.{part_of};
ghost use Rattle.svr_elab_fault.specs.Refusals.{first_one};
ghost use Rattle.svr_elab_item.specs.Items as spec;
ghost use Rattle.svr_elab_item.specs.Seen.{items_part, dist_part, unique_part};

use sqlite_items::Items;
use std::alloc::Global;
use svr_elab_fault::Fault;
use svr_elab_part::{Part, Shape};
use svr_typed::{TDistItem, TExpr, TItem};

/// The guards and loops around an item.
#[derive(Clone, Copy)]
pub struct Around {
    /// The first token of the outermost guard that reads a property that can be random, or the size of one.
    pub open_guard: Option<u32>,
    /// Whether a cyclic random property is read.
    pub cyclic: bool,
}

/// What is known of an item.
#[derive(Drop)]
pub struct ItemPart {
    /// The typed item, where each part has one.
    pub tree: Option<TItem>,
    pub fault: Option<Fault>,
}

/// What is known of the items of a set.
#[derive(Drop)]
pub struct ItemsPart {
    pub trees: Option<Items<TItem>>,
    pub fault: Option<Fault>,
}

/// What is known of what stands behind `else`; without one, no items.
#[derive(Drop)]
pub struct ElsePart {
    pub tree: Option<Option<Items<TItem>>>,
    pub fault: Option<Fault>,
}

/// What is known of the members of a distribution.
#[derive(Drop)]
pub struct DistPart {
    pub tree: Option<Items<TDistItem>>,
    pub fault: Option<Fault>,
    /// Whether one reads a cyclic random property.
    pub cyclic: bool,
}

/// What is known of the members of `unique`.
#[derive(Drop)]
pub struct UniquePart {
    pub trees: Option<Items<TExpr>>,
    /// The size and sign of the first member.
    pub first: Option<Option<Shape>>,
    pub fault: Option<Fault>,
}

/// What is known of the names on one side of `before`.
#[derive(Drop)]
pub(crate) struct SolvePart {
    pub trees: Option<Items<TExpr>>,
    pub fault: Option<Fault>,
}

impl Around {
    /// No guard and no loop.
    pub fn outside() -> Around
        ensures { result ≡ spec.outside }
    {
        Around {
            open_guard: None,
            cyclic: false,
        }
    }

    /// The outermost open guard inside a set with this guard.
    fn open_under(self, guard: &Part) -> Option<u32>
        ensures { result ≡ or_else self.open_guard (only_if (is_open guard.now.reads) (Some guard.now.at)) }
    {
        match self.open_guard {
            Some(at) => Some(at),
            None => if guard.reads.is_open() {
                Some(guard.at)
            } else {
                None
            },
        }
    }

    /// Inside a set with this guard.
    pub fn under(self, guard: &Part) -> Around
        ensures { result ≡ spec.under self (part_of guard.now) }
    {
        let open_guard = self.open_under(guard);
        Around {
            open_guard,
            cyclic: self.cyclic || guard.reads.cyclic,
        }
    }

    /// Inside a loop over this array, whose size is read.
    pub fn over(self, array: &Part) -> Around
        ensures { result ≡ spec.over self (part_of array.now) }
    {
        Around {
            open_guard: self.open_guard,
            cyclic: self.cyclic || array.reads.cyclic,
        }
    }
}

impl ItemsPart {
    /// No items.
    pub fn none(alloc: Global) -> ItemsPart
        ensures { items_part result ≡ spec.no_items first_one }
    {
        ItemsPart {
            trees: Some(Items::new(alloc)),
            fault: None,
        }
    }
}

impl DistPart {
    /// No members.
    pub fn none(alloc: Global) -> DistPart
        ensures { dist_part result ≡ spec.no_dist first_one }
    {
        DistPart {
            tree: Some(Items::new(alloc)),
            fault: None,
            cyclic: false,
        }
    }
}

impl UniquePart {
    /// No members.
    pub fn none(alloc: Global) -> UniquePart
        ensures { unique_part result ≡ spec.no_members first_one }
    {
        UniquePart {
            trees: Some(Items::new(alloc)),
            first: None,
            fault: None,
        }
    }
}
