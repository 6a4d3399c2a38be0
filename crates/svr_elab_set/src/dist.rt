// The members of `dist` (IEEE 1800-2017, 18.5.4).

ghost use Rattle.std.specs.Prelude.{◌≡◌, ◌<◌, ◌^◌, length, IfOk, option_map};
ghost use Rattle.svr_tree.specs.ExprTree as raw;
ghost use Rattle.svr_tree.specs.ExprTree.{range_tree, bound_tree};
ghost use Rattle.svr_tree.specs.ItemTree.{weight_tree, dist_item_trees};
ghost use Rattle.svr_elab_fault.specs.Refusals.{first_one};
ghost use Rattle.svr_elab_names.specs.Tables.{space_of};
ghost use Rattle.svr_elab_part.specs.Seen.{range_part_of};
ghost use Rattle.svr_elab_part.specs.Fits.{MembersFit, RangeFits, RangeLoopsFit};
ghost use Rattle.svr_elab_item.specs.Items as spec;
ghost use Rattle.svr_elab_item.specs.Seen.{dist_part, weight_part};
ghost use Rattle.svr_elab_item.specs.Fits.{WeightFits, WeightLoopsFit, DistItemsFit, DistItemsLoopsFit};

use std::alloc::Global;
use svr_elab_expr::{beside, both, bound, value};
use svr_elab_form::{span_range, value_range};
use svr_elab_item::{DistPart, and_dist};
use svr_elab_names::NameSpace;
use svr_elab_part::{Part, RangePart};
use svr_operator::Share;
use svr_tree::{Bound, DistItem, Expr, Range};
use svr_typed::NoMemory;

/// `[low:high]`
fn dist_span(
    alloc: Global,
    low: &Bound,
    high: &Bound,
    names: &NameSpace<'_, '_>,
) -> Result<RangePart, NoMemory>
    requires vars { length names.now.vars.now.entries < 2 ^ 32 }
    requires loops { RangeLoopsFit (length names.now.loops.now) (raw.span (bound_tree low.now) (bound_tree high.now)) }
    requires members { MembersFit (space_of names.now) }
    requires literals { RangeFits (raw.span (bound_tree low.now) (bound_tree high.now)) }
    ensures { IfOk result (λ r. range_part_of r ≡ spec.dist_range first_one (space_of names.now) (raw.span (bound_tree low.now) (bound_tree high.now))) }
{
    let (low, high) = both(bound(alloc, low, names), bound(alloc, high, names))?;
    Ok(span_range(low, high))
}

/// A range, which has no whole arrays.
fn dist_range(
    alloc: Global,
    range: &Range,
    names: &NameSpace<'_, '_>,
) -> Result<RangePart, NoMemory>
    requires vars { length names.now.vars.now.entries < 2 ^ 32 }
    requires loops { RangeLoopsFit (length names.now.loops.now) (range_tree range.now) }
    requires members { MembersFit (space_of names.now) }
    requires literals { RangeFits (range_tree range.now) }
    ensures { IfOk result (λ r. range_part_of r ≡ spec.dist_range first_one (space_of names.now) (range_tree range.now)) }
{
    match range {
        Range::One(e) => Ok(value_range(value(alloc, e, names)?)),
        Range::Span(low, high) => dist_span(alloc, low, high, names),
    }
}

fn weight_at(
    alloc: Global,
    weight: &Option<(Share, Expr)>,
    names: &NameSpace<'_, '_>,
) -> Result<Option<(Share, Part)>, NoMemory>
    requires vars { length names.now.vars.now.entries < 2 ^ 32 }
    requires loops { WeightLoopsFit (length names.now.loops.now) (option_map weight_tree weight.now) }
    requires members { MembersFit (space_of names.now) }
    requires literals { WeightFits (option_map weight_tree weight.now) }
    ensures { IfOk result (λ w. option_map weight_part w ≡ spec.weight_at first_one (space_of names.now) (option_map weight_tree weight.now)) }
{
    match weight {
        None => Ok(None),
        Some((share, e)) => Ok(Some((*share, value(alloc, e, names)?))),
    }
}

/// One more member of a distribution.
fn with_member(
    alloc: Global,
    dist: DistPart,
    member: &DistItem,
    names: &NameSpace<'_, '_>,
) -> Result<DistPart, NoMemory>
    requires vars { length names.now.vars.now.entries < 2 ^ 32 }
    requires loops { RangeLoopsFit (length names.now.loops.now) (range_tree member.now.range) }
    requires weight_loops { WeightLoopsFit (length names.now.loops.now) (option_map weight_tree member.now.weight) }
    requires members { MembersFit (space_of names.now) }
    requires literals { RangeFits (range_tree member.now.range) }
    requires weight_literals { WeightFits (option_map weight_tree member.now.weight) }
    ensures { IfOk result (λ d. dist_part d ≡ spec.and_dist first_one (dist_part dist) (spec.dist_range first_one (space_of names.now) (range_tree member.now.range)) (spec.weight_at first_one (space_of names.now) (option_map weight_tree member.now.weight))) }
{
    let range = dist_range(alloc, &member.range, names);
    let known = both(range, weight_at(alloc, &member.weight, names));
    let (dist, (range, weight)) = beside(dist, known)?;
    Ok(and_dist(dist, range, weight)?)
}

/// The members of a distribution.
pub(crate) fn dist_items(
    alloc: Global,
    list: &[DistItem],
    names: &NameSpace<'_, '_>,
) -> Result<DistPart, NoMemory>
    requires vars { length names.now.vars.now.entries < 2 ^ 32 }
    requires loops { DistItemsLoopsFit (length names.now.loops.now) (dist_item_trees list.now) }
    requires members { MembersFit (space_of names.now) }
    requires literals { DistItemsFit (dist_item_trees list.now) }
    ensures { IfOk result (λ d. dist_part d ≡ spec.dist_items first_one (space_of names.now) (spec.no_dist first_one) (dist_item_trees list.now)) }
{
    let mut dist = DistPart::none(alloc);
    for member in list {
        dist = with_member(alloc, dist, member, names)?;
    }
    Ok(dist)
}
