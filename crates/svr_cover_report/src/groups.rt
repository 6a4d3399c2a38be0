// Reports over groups.

ghost use Rattle.std.specs.Prelude.{◌≡◌, OnOk, IfOk, true, []};
ghost use Rattle.svr_cover_report.specs.Report as spec;

use crate::counts::{count_at, digit, hits, share};
use crate::names::{CrossNames, GroupNames, PartNames, PointNames, bins_of, name_at};
use crate::text::{begin_tuple, end_tuple, put_bin, put_cross, put_group, put_name, put_point};
use sqlite_items::at;
use std::alloc::Global;
use svr_typed::{NoMemory, Text};

/// A line for each bin of a point.
#[tactic(auto, using(crate::proofs::Turns::one_bin))]
fn put_bins(text: &mut Vec<u8>, names: &[Text], first: u32, counts: &[u64]) -> Result<(), NoMemory>
    ensures { OnOk result (text.new.items ≡ spec.with_all_bins text.old.items names.now first counts.now) }
{
    for place in 0..names.len() {
        put_bin(text, name_at(names, place), count_at(counts, first, place))?;
    }
    Ok(())
}

fn put_whole_point(text: &mut Vec<u8>, point: &PointNames, counts: &[u64]) -> Result<(), NoMemory>
    ensures { OnOk result (text.new.items ≡ spec.with_whole_point text.old.items point.now counts.now) }
{
    let names = point.bins.as_slice();
    let many = names.len();
    let found = hits(counts, point.first, many);
    put_point(text, point.name.as_bytes(), found as u64, many as u64)?;
    put_bins(text, names, point.first, counts)
}

/// The names of the bins of a tuple, from the first point on.
fn put_names(
    text: &mut Vec<u8>,
    points: &[PointNames],
    cross: &[u32],
    tuples: usize,
    tuple: usize,
) -> Result<(), NoMemory>
    ensures { OnOk result (text.new.items ≡ spec.with_names text.old.items points.now true tuples tuple cross.now) }
{
    let mut first = true;
    let mut span = tuples;
    let mut rest = tuple;
    let mut left = cross;
    'points: while let Some((point, others)) = left.split_first() {
        let names = bins_of(points, *point);
        span = share(span, names.len());
        put_name(text, first, name_at(names, share(rest, span)))?;
        rest = digit(rest, span);
        first = false;
        left = others;
    }
    Ok(())
}

/// The line of a tuple.
fn put_tuple(
    text: &mut Vec<u8>,
    points: &[PointNames],
    cross: &CrossNames,
    counts: &[u64],
    tuple: usize,
) -> Result<(), NoMemory>
    ensures { OnOk result (text.new.items ≡ spec.with_tuple text.old.items points.now cross.now counts.now tuple) }
{
    begin_tuple(text)?;
    put_names(text, points, cross.points.as_slice(), cross.tuples, tuple)?;
    end_tuple(text, count_at(counts, cross.first, tuple))
}

/// A line for each tuple of a cross.
#[tactic(auto, using(crate::proofs::Turns::one_tuple))]
fn put_tuples(
    text: &mut Vec<u8>,
    points: &[PointNames],
    cross: &CrossNames,
    counts: &[u64],
) -> Result<(), NoMemory>
    ensures { OnOk result (text.new.items ≡ spec.with_tuples text.old.items points.now cross.now counts.now cross.now.tuples) }
{
    for tuple in 0..cross.tuples {
        put_tuple(text, points, cross, counts, tuple)?;
    }
    Ok(())
}

fn put_whole_cross(
    text: &mut Vec<u8>,
    points: &[PointNames],
    cross: &CrossNames,
    counts: &[u64],
) -> Result<(), NoMemory>
    ensures { OnOk result (text.new.items ≡ spec.with_whole_cross text.old.items points.now cross.now counts.now) }
{
    let found = hits(counts, cross.first, cross.tuples);
    put_cross(
        text,
        cross.name.as_bytes(),
        found as u64,
        cross.tuples as u64,
    )?;
    put_tuples(text, points, cross, counts)
}

/// The point at a place, nothing where there is none.
fn put_point_at(
    text: &mut Vec<u8>,
    points: &[PointNames],
    place: u32,
    counts: &[u64],
) -> Result<(), NoMemory>
    ensures { OnOk result (text.new.items ≡ spec.with_point_at text.old.items points.now place counts.now) }
{
    match at(points, place as usize) {
        Some(point) => put_whole_point(text, point, counts),
        None => Ok(()),
    }
}

fn put_part(
    text: &mut Vec<u8>,
    points: &[PointNames],
    part: &PartNames,
    counts: &[u64],
) -> Result<(), NoMemory>
    ensures { OnOk result (text.new.items ≡ spec.with_part text.old.items points.now counts.now part.now) }
{
    match part {
        PartNames::Point(place) => put_point_at(text, points, *place, counts),
        PartNames::Cross(cross) => put_whole_cross(text, points, cross, counts),
    }
}

fn put_parts(
    text: &mut Vec<u8>,
    points: &[PointNames],
    parts: &[PartNames],
    counts: &[u64],
) -> Result<(), NoMemory>
    ensures { OnOk result (text.new.items ≡ spec.with_parts points.now counts.now text.old.items parts.now) }
{
    let mut left = parts;
    'parts: while let Some((part, others)) = left.split_first() {
        put_part(text, points, part, counts)?;
        left = others;
    }
    Ok(())
}

fn put_whole_group(text: &mut Vec<u8>, group: &GroupNames, counts: &[u64]) -> Result<(), NoMemory>
    ensures { OnOk result (text.new.items ≡ spec.with_whole_group counts.now text.old.items group.now) }
{
    put_group(
        text,
        group.name.as_bytes(),
        count_at(counts, group.samples, 0),
    )?;
    put_parts(
        text,
        group.points.as_slice(),
        group.parts.as_slice(),
        counts,
    )
}

fn put_groups(text: &mut Vec<u8>, groups: &[GroupNames], counts: &[u64]) -> Result<(), NoMemory>
    ensures { OnOk result (text.new.items ≡ spec.with_groups counts.now text.old.items groups.now) }
{
    let mut left = groups;
    'groups: while let Some((group, others)) = left.split_first() {
        put_whole_group(text, group, counts)?;
        left = others;
    }
    Ok(())
}

/// The report of groups over their counters: for each group a line with its samples, and for each of its points and crosses a line with how many of its bins or tuples are not empty, and one for each of them with its count.
pub fn report(alloc: Global, groups: &[GroupNames], counts: &[u64]) -> Result<Vec<u8>, NoMemory>
    ensures { IfOk result (λ t. t.items ≡ spec.with_groups counts.now [] groups.now) }
{
    let mut text = Vec::new(alloc);
    put_groups(&mut text, groups, counts)?;
    Ok(text)
}
