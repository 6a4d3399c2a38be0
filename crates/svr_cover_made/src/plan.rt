// The counters of the parts of a group, and their names.

ghost use Rattle.std.specs.Prelude.{◌≡◌, ◌+◌, ◌++◌, ◌∷◌, [], suc, map, reverse, slice_index, OnOk, IfOk};
ghost use Rattle.svr_cover_checked.specs.Refusals.{tuples_from};
ghost use Rattle.svr_cover_checked.specs.Seen.{seen};
ghost use Rattle.svr_cover_made.specs.Plan as spec;

use crate::named::{all_names, text_of};
use crate::stored::all_bins;
use sqlite_items::{Items, at as item_at};
use std::alloc::Global;
use svr_cover::Cross;
use svr_cover_checked::{About, prop_of};
use svr_cover_report::{CrossNames, PartNames, PointNames};
use svr_cover_text::{BinsText, PartText};
use svr_cover_union::Range;
use svr_typed::{NoMemory, NumType, Prop};

/// A point as it is planned: its property, the counter of its first bin, and the stored values of each of its bins.
#[derive(Drop)]
pub struct PointPlan {
    pub prop: u32,
    pub first: u32,
    pub bins: Items<Items<Range>>,
}

/// The parts of a group as they are planned, and the counter behind them.
#[derive(Drop)]
pub struct Parts {
    pub points: Items<PointPlan>,
    pub crosses: Items<Cross>,
    pub named: Items<PointNames>,
    pub parts: Items<PartNames>,
    pub next: u32,
}

/// A number of counters or places; those that 32 bits do not hold are in no memory.
pub(crate) fn number(many: usize) -> Result<u32, NoMemory>
    ensures { IfOk result (λ n. n ≡ many) }
{
    if many > u32::MAX as usize {
        return Err(NoMemory);
    }
    Ok(many as u32)
}

/// So many counters further.
fn further(counter: u32, many: usize) -> Result<u32, NoMemory>
    ensures { IfOk result (λ n. n ≡ counter + many) }
{
    if many > u32::MAX as usize {
        return Err(NoMemory);
    }
    number(counter as usize + many)
}

/// A place that was found, as a number.
pub(crate) fn or_zero(place: Option<usize>) -> Result<u32, NoMemory>
    ensures { IfOk result (λ n. n ≡ spec.or_zero place) }
{
    match place {
        None => Ok(0),
        Some(place) => number(place),
    }
}

fn kind_of(props: &[Prop], place: u32) -> NumType
    ensures { result ≡ spec.kind_of props.now place }
{
    match item_at(props, place as usize) {
        None => NumType {
            width: 1,
            signed: false,
            members: None,
        },
        Some(prop) => prop.kind,
    }
}

/// One more item.
pub(crate) fn keep<T: Drop>(items: &mut Items<T>, item: T) -> Result<(), NoMemory>
    ensures { OnOk result (items.new ≡ items.old ++ item ∷ []) }
{
    match items.push(item) {
        Ok(()) => Ok(()),
        Err(_) => Err(NoMemory),
    }
}

fn rank_behind(part: &PartText, rank: u32) -> Result<u32, NoMemory>
    ensures { IfOk result (λ n. n ≡ spec.rank_behind part.now rank) }
{
    match part {
        PartText::Point { .. } => further(rank, 1),
        PartText::Cross { .. } => Ok(rank),
    }
}

/// Before each part, how many points stand.
pub(crate) fn ranks(alloc: Global, parts: &[PartText]) -> Result<Items<u32>, NoMemory>
    ensures { IfOk result (λ rs. rs ≡ spec.ranks 0 parts.now) }
{
    let mut done = Items::new(alloc);
    let mut rank: u32 = 0;
    let mut left = parts;
    'parts: while let Some((part, others)) = left.split_first() {
        keep(&mut done, rank)?;
        rank = rank_behind(part, rank)?;
        left = others;
    }
    Ok(done)
}

/// The number at a place, 0 outside.
fn number_at(numbers: &[u32], at: u32) -> u32
    ensures { result ≡ slice_index numbers.now at }
{
    match numbers.get(at as usize) {
        Some(number) => *number,
        None => 0,
    }
}

/// The place among the points of a group of that of a name.
fn rank_of(about: &About<'_, '_>, ranks: &[u32], name: u32) -> u32
    ensures { result ≡ spec.rank_of (seen about.now) ranks.now name }
{
    match about.place(name) {
        None => 0,
        Some(place) => number_at(ranks, place),
    }
}

/// The places of the points of a cross, in its order.
fn ranks_of(
    alloc: Global,
    about: &About<'_, '_>,
    ranks: &[u32],
    points: &[u32],
) -> Result<Items<u32>, NoMemory>
    ensures { IfOk result (λ rs. rs ≡ map (spec.rank_of (seen about.now) ranks.now) points.now) }
{
    let mut done = Items::new(alloc);
    let mut left = points;
    'points: while let Some((point, others)) = left.split_first() {
        keep(&mut done, rank_of(about, ranks, *point))?;
        left = others;
    }
    Ok(done)
}

/// From the last to the first.
fn reversed(alloc: Global, numbers: &[u32]) -> Result<Items<u32>, NoMemory>
    ensures { IfOk result (λ rs. rs ≡ reverse numbers.now) }
{
    let mut numbers = Vec::from_slice(alloc, numbers)?;
    numbers.reverse();
    Ok(Items::from_vec(numbers))
}

fn point_plan(
    alloc: Global,
    about: &About<'_, '_>,
    first: u32,
    prop: u32,
    bins: &[BinsText],
) -> Result<PointPlan, NoMemory>
    ensures { IfOk result (λ x. x ≡ spec.point_plan (seen about.now) first prop bins.now) }
{
    let names = about.names;
    let prop = or_zero(prop_of(about.props, names.name(prop)))?;
    let bins = all_bins(alloc, names, kind_of(about.props, prop), bins)?;
    Ok(PointPlan { prop, first, bins })
}

fn point_names(
    alloc: Global,
    about: &About<'_, '_>,
    first: u32,
    name: u32,
    bins: &[BinsText],
) -> Result<PointNames, NoMemory>
    ensures { IfOk result (λ x. x ≡ spec.point_names (seen about.now) first name bins.now) }
{
    let names = about.names;
    let bins = all_names(alloc, names, bins)?;
    let name = text_of(alloc, names.name(name))?;
    Ok(PointNames { name, first, bins })
}

fn cross_plan(
    alloc: Global,
    about: &About<'_, '_>,
    ranks: &[u32],
    first: u32,
    points: &[u32],
) -> Result<Cross, NoMemory>
    ensures { IfOk result (λ x. x ≡ spec.cross_plan (seen about.now) ranks.now first points.now) }
{
    let places = ranks_of(alloc, about, ranks, points)?;
    let points = reversed(alloc, places.as_slice())?;
    Ok(Cross { first, points })
}

/// How many tuples a cross has; those of one with an unknown point are refused.
fn tuples_of(about: &About<'_, '_>, at: usize, points: &[u32]) -> usize
    ensures { result ≡ spec.or_zero (tuples_from (seen about.now) at 1 points.now) }
{
    match about.tuples(at, points) {
        None => 0,
        Some(tuples) => tuples as usize,
    }
}

fn cross_names(
    alloc: Global,
    about: &About<'_, '_>,
    ranks: &[u32],
    at: usize,
    first: u32,
    name: u32,
    points: &[u32],
) -> Result<CrossNames, NoMemory>
    ensures { IfOk result (λ x. x ≡ spec.cross_names (seen about.now) ranks.now at first name points.now) }
{
    let tuples = tuples_of(about, at, points);
    let points = ranks_of(alloc, about, ranks, points)?;
    let name = text_of(alloc, about.names.name(name))?;
    Ok(CrossNames {
        name,
        first,
        tuples,
        points,
    })
}

fn put_point(
    alloc: Global,
    about: &About<'_, '_>,
    parts: &mut Parts,
    name: u32,
    prop: u32,
    bins: &[BinsText],
) -> Result<(), NoMemory>
    ensures { OnOk result (parts.new ≡ spec.with_point (seen about.now) parts.old name prop bins.now) }
{
    let first = parts.next;
    let place = number(parts.points.len())?;
    let plan = point_plan(alloc, about, first, prop, bins)?;
    let many = plan.bins.len();
    keep(&mut parts.points, plan)?;
    let names = point_names(alloc, about, first, name, bins)?;
    keep(&mut parts.named, names)?;
    keep(&mut parts.parts, PartNames::Point(place))?;
    parts.next = further(first, many)?;
    Ok(())
}

fn put_cross(
    alloc: Global,
    about: &About<'_, '_>,
    ranks: &[u32],
    at: usize,
    parts: &mut Parts,
    name: u32,
    points: &[u32],
) -> Result<(), NoMemory>
    ensures { OnOk result (parts.new ≡ spec.with_cross (seen about.now) ranks.now at parts.old name points.now) }
{
    let first = parts.next;
    let plan = cross_plan(alloc, about, ranks, first, points)?;
    keep(&mut parts.crosses, plan)?;
    let names = cross_names(alloc, about, ranks, at, first, name, points)?;
    keep(&mut parts.parts, PartNames::Cross(names))?;
    parts.next = further(first, tuples_of(about, at, points))?;
    Ok(())
}

fn put_part(
    alloc: Global,
    about: &About<'_, '_>,
    ranks: &[u32],
    at: usize,
    parts: &mut Parts,
    part: &PartText,
) -> Result<(), NoMemory>
    ensures { OnOk result (parts.new ≡ spec.with_part (seen about.now) ranks.now at parts.old part.now) }
{
    match part {
        PartText::Point {
            name,
            prop,
            bins,
            ..
        } => put_point(alloc, about, parts, *name, *prop, bins.as_slice()),
        PartText::Cross { name, points } => {
            put_cross(alloc, about, ranks, at, parts, *name, points.as_slice())
        }
    }
}

/// The parts of a group behind the counter of its samples.
pub(crate) fn all_parts(
    alloc: Global,
    about: &About<'_, '_>,
    ranks: &[u32],
    first: u32,
    parts: &[PartText],
) -> Result<Parts, NoMemory>
    ensures { IfOk result (λ s. s ≡ spec.with_parts (seen about.now) ranks.now 0 (spec.no_parts (suc first)) parts.now) }
{
    let next = further(first, 1)?;
    let mut done = Parts {
        points: Items::new(alloc),
        crosses: Items::new(alloc),
        named: Items::new(alloc),
        parts: Items::new(alloc),
        next,
    };
    let mut at: usize = 0;
    let mut left = parts;
    'parts: while let Some((part, others)) = left.split_first() {
        put_part(alloc, about, ranks, at, &mut done, part)?;
        left = others;
        at += 1;
    }
    Ok(done)
}
