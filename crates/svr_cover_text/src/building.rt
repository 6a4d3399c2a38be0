// Groups as far as they are read.

ghost use Rattle.std.specs.Prelude.{◌≡◌, OnOk};
ghost use Rattle.svr_cover_text.specs.Machine as spec;

use crate::place::Deed;
use crate::text::{BinsText, GroupText, NumText, PartText, RangeText};
use sqlite_items::Items;
use std::alloc::{AllocError, Global};
use std::mem;

/// What stands at the head of the group at hand.
#[derive(Clone, Copy)]
pub(crate) struct GroupHead {
    name: u32,
    class: u32,
    formal: u32,
}

/// What stands at the head of the part at hand.
#[derive(Clone, Copy)]
pub(crate) struct PartHead {
    name: u32,
    formal: u32,
    prop: u32,
}

/// What stands at the head of the `bins` at hand.
#[derive(Clone, Copy)]
pub(crate) struct BinsHead {
    name: u32,
    each: bool,
}

/// The first token of the range at hand, and its lower bound.
#[derive(Clone, Copy)]
pub(crate) struct RangeHead {
    at: u32,
    low: NumText,
}

/// What is read: whole groups, and at each level below the whole ones and the head of the one at hand.
#[derive(Drop)]
pub(crate) struct Building {
    groups: Items<GroupText>,
    group: GroupHead,
    parts: Items<PartText>,
    part: PartHead,
    bins: Items<BinsText>,
    bin: BinsHead,
    ranges: Items<RangeText>,
    range: RangeHead,
    /// The points of the cross at hand.
    points: Items<u32>,
}

impl Building {
    pub(crate) fn new(alloc: Global) -> Building
        ensures { result ≡ spec.nothing }
    {
        Building {
            groups: Items::new(alloc),
            group: GroupHead {
                name: 0,
                class: 0,
                formal: 0,
            },
            parts: Items::new(alloc),
            part: PartHead {
                name: 0,
                formal: 0,
                prop: 0,
            },
            bins: Items::new(alloc),
            bin: BinsHead {
                name: 0,
                each: false,
            },
            ranges: Items::new(alloc),
            range: RangeHead {
                at: 0,
                low: NumText {
                    negative: false,
                    digits: 0,
                },
            },
            points: Items::new(alloc),
        }
    }

    fn end_group(&mut self, alloc: Global) -> Result<(), AllocError>
        ensures { OnOk result (self.new ≡ spec.with_group self.old) }
    {
        let parts = mem::replace(&mut self.parts, Items::new(alloc));
        let head = self.group;
        self.groups.push(GroupText {
            name: head.name,
            class: head.class,
            formal: head.formal,
            parts,
        })
    }

    fn end_point(&mut self, alloc: Global) -> Result<(), AllocError>
        ensures { OnOk result (self.new ≡ spec.with_point self.old) }
    {
        let bins = mem::replace(&mut self.bins, Items::new(alloc));
        let head = self.part;
        self.parts.push(PartText::Point {
            name: head.name,
            formal: head.formal,
            prop: head.prop,
            bins,
        })
    }

    fn end_cross(&mut self, alloc: Global) -> Result<(), AllocError>
        ensures { OnOk result (self.new ≡ spec.with_cross self.old) }
    {
        let points = mem::replace(&mut self.points, Items::new(alloc));
        let name = self.part.name;
        self.parts.push(PartText::Cross { name, points })
    }

    fn end_bins(&mut self, alloc: Global) -> Result<(), AllocError>
        ensures { OnOk result (self.new ≡ spec.with_bins self.old) }
    {
        let ranges = mem::replace(&mut self.ranges, Items::new(alloc));
        let head = self.bin;
        self.bins.push(BinsText {
            name: head.name,
            each: head.each,
            ranges,
        })
    }

    fn set_low(&mut self, negative: bool, digits: u32)
        ensures { self.new ≡ spec.with_low self.old negative digits }
    {
        self.range.low = NumText { negative, digits };
    }

    /// A range of one number that begins at a token.
    fn keep_single(&mut self, at: u32, negative: bool, digits: u32) -> Result<(), AllocError>
        ensures { OnOk result (self.new ≡ spec.with_single self.old at negative digits) }
    {
        self.ranges.push(RangeText {
            at,
            low: NumText { negative, digits },
            high: None,
        })
    }

    /// The number at hand, which begins with `-`.
    fn keep_minus(&mut self, digits: u32) -> Result<(), AllocError>
        ensures { OnOk result (self.new ≡ spec.with_minus self.old digits) }
    {
        let at = self.range.at;
        self.keep_single(at, true, digits)
    }

    /// The range at hand, with this upper bound.
    fn keep_between(&mut self, negative: bool, digits: u32) -> Result<(), AllocError>
        ensures { OnOk result (self.new ≡ spec.with_between self.old negative digits) }
    {
        let head = self.range;
        self.ranges.push(RangeText {
            at: head.at,
            low: head.low,
            high: Some(NumText { negative, digits }),
        })
    }

    /// Adds what the token of this number says.
    pub(crate) fn keep(&mut self, alloc: Global, deed: Deed, at: u32) -> Result<(), AllocError>
        ensures { OnOk result (self.new ≡ spec.kept self.old deed at) }
    {
        match deed {
            Deed::Skip => {}
            Deed::Group => self.group.name = at,
            Deed::Class => self.group.class = at,
            Deed::Formal => self.group.formal = at,
            Deed::Part => self.part.name = at,
            Deed::PointFormal => self.part.formal = at,
            Deed::PointProp => self.part.prop = at,
            Deed::Bins => self.bin = BinsHead {
                name: at,
                each: false,
            },
            Deed::Each => self.bin.each = true,
            Deed::OpenRange => self.range.at = at,
            Deed::Low => self.set_low(false, at),
            Deed::LowMinus => self.set_low(true, at),
            Deed::Single => return self.keep_single(at, false, at),
            Deed::SingleMinus => return self.keep_minus(at),
            Deed::High => return self.keep_between(false, at),
            Deed::HighMinus => return self.keep_between(true, at),
            Deed::CrossPoint => return self.points.push(at),
            Deed::EndBins => return self.end_bins(alloc),
            Deed::EndPoint => return self.end_point(alloc),
            Deed::EndCross => return self.end_cross(alloc),
            Deed::EndGroup => return self.end_group(alloc),
        }
        Ok(())
    }

    /// The whole groups.
    pub(crate) fn into_groups(self) -> Items<GroupText>
        ensures { result ≡ self.groups }
    {
        self.groups
    }
}
