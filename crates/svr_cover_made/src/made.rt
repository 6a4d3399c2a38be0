// Groups with their counters.

ghost use Rattle.std.specs.Prelude.{◌≡◌, IfOk, OnOk};
ghost use Rattle.svr_token.specs.Names.{names_of};
ghost use Rattle.svr_cover_made.specs.Made as spec;

use crate::groups::{GroupPlan, group_plan};
use crate::plan::{PointPlan, keep, number};
use sqlite_items::Items;
use std::alloc::Global;
use svr_cover::{Group, Point};
use svr_cover_report::GroupNames;
use svr_cover_text::GroupText;
use svr_cover_union::of_bins;
use svr_token::Names;
use svr_typed::{FlatClass, NoMemory, TClass};

/// Groups over their counters, what a report names, and how many counters there are.
#[derive(Drop)]
pub struct Made {
    pub groups: Items<Group>,
    pub names: Items<GroupNames>,
    pub counters: u32,
}

fn point_of(alloc: Global, plan: &PointPlan) -> Result<Point, NoMemory>
    ensures { IfOk result (λ p. spec.IsPointOf plan.now p) }
{
    let values = plan.bins.as_slice();
    let many = number(values.len())?;
    let steps = of_bins(alloc, values, 0)?;
    Ok(Point {
        prop: plan.prop,
        first: plan.first,
        bins: many,
        steps,
    })
}

fn points_of(alloc: Global, plans: &[PointPlan]) -> Result<Items<Point>, NoMemory>
    ensures { IfOk result (λ ps. spec.ArePointsOf plans.now ps) }
{
    let mut done = Items::new(alloc);
    let mut left = plans;
    'plans: while let Some((plan, others)) = left.split_first() {
        let point = point_of(alloc, plan)?;
        keep(&mut done, point)?;
        left = others;
    }
    Ok(done)
}

/// A group with its points, and what a report names of it.
fn finished(alloc: Global, plan: GroupPlan) -> Result<(Group, GroupNames), NoMemory>
    ensures group { IfOk result (λ r. spec.IsGroupOf plan r.0) }
    ensures names { IfOk result (λ r. r.1 ≡ plan.names) }
{
    let made = points_of(alloc, plan.points.as_slice())?;
    let GroupPlan {
        class,
        samples,
        points,
        crosses,
        names,
        end: _,
    } = plan;
    drop(points);
    Ok((
        Group {
            class,
            samples,
            points: made,
            crosses,
        },
        names,
    ))
}

/// Puts one group more behind those before.
fn put_group(
    alloc: Global,
    names: Names<'_>,
    classes: &[TClass],
    flats: &[FlatClass],
    made: &mut Made,
    group: &GroupText,
) -> Result<(), NoMemory>
    ensures { OnOk result (spec.IsNext (names_of names.entry) classes.now flats.now group.now made.old made.new) }
{
    let plan = group_plan(alloc, names, classes, flats, made.counters, group)?;
    let end = plan.end;
    let (one, named) = finished(alloc, plan)?;
    keep(&mut made.groups, one)?;
    keep(&mut made.names, named)?;
    made.counters = end;
    Ok(())
}

/// The counters that cover groups ask for, and what their report names (IEEE 1800-2017, clause 19). `check` of svr_cover_checked tells what is refused; a name that is refused counts as the first of its kind.
pub fn make(
    alloc: Global,
    names: Names<'_>,
    classes: &[TClass],
    flats: &[FlatClass],
    groups: &[GroupText],
) -> Result<Made, NoMemory>
    ensures { IfOk result (spec.IsMade (names_of names.entry) classes.now flats.now groups.now) }
{
    let mut made = Made {
        groups: Items::new(alloc),
        names: Items::new(alloc),
        counters: 0,
    };
    let mut left = groups;
    'groups: while let Some((group, others)) = left.split_first() {
        put_group(alloc, names, classes, flats, &mut made, group)?;
        left = others;
    }
    Ok(made)
}
