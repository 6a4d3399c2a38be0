// Groups as they are planned.

ghost use Rattle.std.specs.Prelude.{◌≡◌, Ok, IfOk};
ghost use Rattle.svr_token.specs.Names.{names_of};
ghost use Rattle.svr_cover_made.specs.Plan as spec;

use crate::named::text_of;
use crate::plan::{Parts, PointPlan, all_parts, or_zero, ranks};
use sqlite_items::Items;
use std::alloc::Global;
use svr_cover::Cross;
use svr_cover_checked::{
    About, CoverFault, class_of, part_counts, part_names, places_of, props_of,
};
use svr_cover_report::GroupNames;
use svr_cover_text::GroupText;
use svr_token::Names;
use svr_typed::{FlatClass, NoMemory, Prop, TClass, Text};

/// A group as it is planned: its class, the counter of its samples, its points and crosses, what a report names, and the counter behind it.
#[derive(Drop)]
pub struct GroupPlan {
    pub class: u32,
    pub samples: u32,
    pub points: Items<PointPlan>,
    pub crosses: Items<Cross>,
    pub names: GroupNames,
    pub end: u32,
}

/// What was made, or want of memory.
fn made<T>(found: Result<T, CoverFault>) -> Result<T, NoMemory>
    ensures { IfOk result (λ x. found ≡ Ok x) }
{
    match found {
        Ok(value) => Ok(value),
        Err(_) => Err(NoMemory),
    }
}

/// The parts of a group of a class with these properties. `first` is the counter of its samples.
fn parts_of(
    alloc: Global,
    names: Names<'_>,
    props: &[Prop],
    first: u32,
    group: &GroupText,
) -> Result<Parts, NoMemory>
    ensures { IfOk result (λ s. s ≡ spec.all_parts (spec.about_of (names_of names.entry) props.now group.now) first group.now.parts) }
{
    let parts = group.parts.as_slice();
    let tokens = made(part_names(alloc, parts))?;
    let table = made(places_of(alloc, names, tokens.as_slice()))?;
    let counts = made(part_counts(alloc, names, parts))?;
    let before = ranks(alloc, parts)?;
    let about = About {
        names,
        table: &table,
        formal: group.formal,
        props,
        counts: counts.as_slice(),
    };
    all_parts(alloc, &about, before.as_slice(), first, parts)
}

/// A group with its parts and its name.
fn planned(class: u32, samples: u32, name: Text, parts: Parts) -> GroupPlan
    ensures { result ≡ record { class = class; samples = samples; points = parts.points; crosses = parts.crosses; names = record { name = name; samples = samples; points = parts.named; parts = parts.parts }; end = parts.next } }
{
    let Parts {
        points,
        crosses,
        named,
        parts,
        next,
    } = parts;
    GroupPlan {
        class,
        samples,
        points,
        crosses,
        names: GroupNames {
            name,
            samples,
            points: named,
            parts,
        },
        end: next,
    }
}

/// A group whose first counter is `first`.
pub(crate) fn group_plan(
    alloc: Global,
    names: Names<'_>,
    classes: &[TClass],
    flats: &[FlatClass],
    first: u32,
    group: &GroupText,
) -> Result<GroupPlan, NoMemory>
    ensures { IfOk result (λ g. g ≡ spec.group_plan (names_of names.entry) classes.now flats.now first group.now) }
{
    let class = class_of(classes, names.name(group.class));
    let number = or_zero(class)?;
    let title = text_of(alloc, names.name(group.name))?;
    let parts = parts_of(alloc, names, props_of(flats, class), first, group)?;
    Ok(planned(number, first, title, parts))
}
