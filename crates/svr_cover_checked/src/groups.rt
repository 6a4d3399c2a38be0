// Groups (IEEE 1800-2017, 19.3 and 19.8.1).

ghost use Rattle.std.specs.Prelude.{◌≡◌, [], map, Some, MatchResult, IfOk, IfErr};
ghost use Rattle.svr_token.specs.Names.{names_of};
ghost use Rattle.svr_cover_checked.specs.Design.{class_from};
ghost use Rattle.svr_cover_checked.specs.Refusals as spec;
ghost use Rattle.svr_cover_checked.specs.Seen.{seen};
ghost use Rattle.svr_cover_checked.specs.Tables.{found_in};

use crate::bins::all_count;
use crate::design::{class_of, props_of};
use crate::fault::{CoverFault, keep, unless};
use crate::limits::MOST_GROUPS;
use crate::names::{Places, places_of};
use crate::parts::About;
use sqlite_items::Items;
use std::alloc::Global;
use svr_cover_text::{GroupText, PartText};
use svr_refusal::Refusal;
use svr_token::Names;
use svr_typed::{FlatClass, TClass};

/// The classes of a script, and each of them with what it inherits.
#[derive(Clone, Copy)]
pub(crate) struct Classes<'d> {
    classes: &'d [TClass],
    flats: &'d [FlatClass],
}

fn part_name(part: &PartText) -> u32
    ensures { result ≡ spec.part_name part.now }
{
    match part {
        PartText::Point { name, .. } => *name,
        PartText::Cross { name, .. } => *name,
    }
}

/// How many bins a part has, if it is a point.
fn part_count(names: Names<'_>, part: &PartText) -> Option<u64>
    ensures { result ≡ spec.part_count (names_of names.entry) part.now }
{
    match part {
        PartText::Point { bins, .. } => Some(all_count(names, bins.as_slice())),
        PartText::Cross { .. } => None,
    }
}

/// The names of parts, in their order.
pub fn part_names(alloc: Global, parts: &[PartText]) -> Result<Items<u32>, CoverFault>
    ensures names { IfOk result (λ ns. ns ≡ map spec.part_name parts.now) }
    ensures memory { IfErr result (λ e. e ≡ CoverFault.NoMemory) }
{
    let mut done = Items::new(alloc);
    let mut left = parts;
    'parts: while let Some((part, others)) = left.split_first() {
        keep(&mut done, part_name(part))?;
        left = others;
    }
    Ok(done)
}

/// How many bins each part has, if it is a point.
pub fn part_counts(
    alloc: Global,
    names: Names<'_>,
    parts: &[PartText],
) -> Result<Items<Option<u64>>, CoverFault>
    ensures counts { IfOk result (λ ns. ns ≡ map (spec.part_count (names_of names.entry)) parts.now) }
    ensures memory { IfErr result (λ e. e ≡ CoverFault.NoMemory) }
{
    let mut done = Items::new(alloc);
    let mut left = parts;
    'parts: while let Some((part, others)) = left.split_first() {
        keep(&mut done, part_count(names, part))?;
        left = others;
    }
    Ok(done)
}

fn group_names(alloc: Global, groups: &[GroupText]) -> Result<Items<u32>, CoverFault>
    ensures names { IfOk result (λ ns. ns ≡ map spec.group_name groups.now) }
    ensures memory { IfErr result (λ e. e ≡ CoverFault.NoMemory) }
{
    let mut done = Items::new(alloc);
    let mut left = groups;
    'groups: while let Some((group, others)) = left.split_first() {
        keep(&mut done, group.name)?;
        left = others;
    }
    Ok(done)
}

/// The tuples of all crosses up to the last part, where those before have so many.
///
/// Errors: the first of each part in their order.
fn check_parts(
    alloc: Global,
    about: &About<'_, '_>,
    total: u64,
    parts: &[PartText],
) -> Result<u64, CoverFault>
    ensures { let rs = spec.parts_refusals (seen about.now) 0 total parts.now in MatchResult result (λ t. (rs ≡ []) × (t ≡ spec.parts_total (seen about.now) 0 total parts.now)) (λ e. spec.IsFirst e rs) }
{
    let mut sum = total;
    let mut at: usize = 0;
    let mut left = parts;
    'parts: while let Some((part, others)) = left.split_first() {
        about.check_part(alloc, at, sum, part)?;
        sum = about.total_behind(at, sum, part);
        left = others;
        at += 1;
    }
    Ok(sum)
}

/// The parts of a group of a class that is known.
fn check_inside(
    alloc: Global,
    names: Names<'_>,
    classes: Classes<'_>,
    class: Option<usize>,
    total: u64,
    group: &GroupText,
) -> Result<u64, CoverFault>
    requires { class ≡ class_from 0 classes.classes.now (names_of names group.now.class) }
    ensures { let g = spec.group_of (names_of names.entry) classes.entry.classes.now classes.entry.flats.now group.now in let rs = spec.parts_refusals g 0 total group.now.parts in MatchResult result (λ t. (rs ≡ []) × (t ≡ spec.parts_total g 0 total group.now.parts)) (λ e. spec.IsFirst e rs) }
{
    let parts = group.parts.as_slice();
    let tokens = part_names(alloc, parts)?;
    let table = places_of(alloc, names, tokens.as_slice())?;
    let counts = part_counts(alloc, names, parts)?;
    let about = About {
        names,
        table: &table,
        formal: group.formal,
        props: props_of(classes.flats, class),
        counts: counts.as_slice(),
    };
    check_parts(alloc, &about, total, parts)
}

/// The tuples of all crosses up to the end of a group.
///
/// Errors: the first of the group at a place.
fn check_group(
    alloc: Global,
    places: &Places<'_, '_>,
    classes: Classes<'_>,
    at: usize,
    total: u64,
    group: &GroupText,
) -> Result<u64, CoverFault>
    ensures { let text = names_of places.now.names in let rs = spec.group_refusals text classes.entry.classes.now classes.entry.flats.now (found_in places.now.table.now.entries) at total group.now in
        MatchResult result (λ t. (rs ≡ []) × (t ≡ spec.parts_total (spec.group_of text classes.entry.classes.now classes.entry.flats.now group.now) 0 total group.now.parts)) (λ e. spec.IsFirst e rs) }
{
    let names = places.names;
    let class = class_of(classes.classes, names.name(group.class));
    places.first(at, group.name)?;
    unless(at < MOST_GROUPS, Refusal::TooManyBins, group.name)?;
    unless(class.is_some(), Refusal::UnknownCover, group.class)?;
    check_inside(alloc, names, classes, class, total, group)
}

fn check_each(
    alloc: Global,
    places: &Places<'_, '_>,
    classes: Classes<'_>,
    groups: &[GroupText],
) -> Result<(), CoverFault>
    ensures { let rs = spec.groups_refusals (names_of places.now.names) classes.entry.classes.now classes.entry.flats.now (found_in places.now.table.now.entries) 0 0 groups.now in MatchResult result (λ _. rs ≡ []) (λ e. spec.IsFirst e rs) }
{
    let mut total: u64 = 0;
    let mut at: usize = 0;
    let mut left = groups;
    'groups: while let Some((group, others)) = left.split_first() {
        total = check_group(alloc, places, classes, at, total, group)?;
        left = others;
        at += 1;
    }
    Ok(())
}

/// Errors: the first refusal of groups over the classes of a script in the order of the text, at one place that of the lower number: `UnknownCover`, a name that is no class, no scalar property of it, not the formal argument, or no earlier point of the group;
/// `DoubleCover`, a second group, part of a group or `bins` of a point of one name; `TooManyBins`, over 64 groups, 64 parts, 1,024 bins of a point, 65,536 tuples of a cross or 1,048,576 tuples of all crosses together; `BadBins`, a range without numbers, or with a number that a `bins` with `[]` has twice.
pub fn check(
    alloc: Global,
    names: Names<'_>,
    classes: &[TClass],
    flats: &[FlatClass],
    groups: &[GroupText],
) -> Result<(), CoverFault>
    ensures { let rs = spec.refusals (names_of names.entry) classes.now flats.now groups.now in MatchResult result (λ _. rs ≡ []) (λ e. spec.IsFirst e rs) }
{
    let tokens = group_names(alloc, groups)?;
    let table = places_of(alloc, names, tokens.as_slice())?;
    let places = Places {
        names,
        table: &table,
    };
    check_each(alloc, &places, Classes { classes, flats }, groups)
}
