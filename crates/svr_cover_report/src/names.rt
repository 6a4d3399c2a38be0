// What a report names.

ghost use Rattle.std.specs.Prelude.{◌≡◌, slice_index_or, length, []};
ghost use Rattle.svr_cover_report.specs.Report as spec;

use sqlite_items::{Items, at};
use svr_typed::Text;

/// A point: its name, the counter of its first bin, and the names of its bins.
#[derive(Drop)]
pub struct PointNames {
    pub name: Text,
    pub first: u32,
    pub bins: Items<Text>,
}

/// A cross: its name, the counter of its first tuple, how many tuples it has, and the places of its points in the group, in its order.
#[derive(Drop)]
pub struct CrossNames {
    pub name: Text,
    pub first: u32,
    pub tuples: usize,
    pub points: Items<u32>,
}

/// A part of a group: the point at a place of the group, or a cross.
#[derive(Drop)]
pub enum PartNames {
    Point(u32),
    Cross(CrossNames),
}

/// A group: its name, the counter of its samples, its points, and its parts in their order.
#[derive(Drop)]
pub struct GroupNames {
    pub name: Text,
    pub samples: u32,
    pub points: Items<PointNames>,
    pub parts: Items<PartNames>,
}

/// The names of the bins of the point at a place, none where there is no such point.
pub(crate) fn bins_of(points: &[PointNames], place: u32) -> &[Text]
    ensures { result.now ≡ spec.bins_of points.now place }
{
    match at(points, place as usize) {
        Some(point) => point.bins.as_slice(),
        None => &[],
    }
}

/// The name at a place, empty outside.
pub(crate) fn name_at(names: &[Text], place: usize) -> &[u8]
    ensures { result.now ≡ spec.name_at names.now place }
{
    match at(names, place) {
        Some(name) => name.as_bytes(),
        None => &[],
    }
}
