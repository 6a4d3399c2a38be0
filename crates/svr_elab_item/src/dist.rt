// `dist` (IEEE 1800-2017, 18.5.4).

ghost use Rattle.std.specs.Prelude.{◌≡◌, ◌||◌, IfOk, None, Some, option_map};
ghost use Rattle.svr_typed.specs.ExprTerm.{expr_term, range_term};
ghost use Rattle.svr_typed.specs.ItemTerm.{dist_term};
ghost use Rattle.svr_elab_fault.specs.Refusals.{first_one};
ghost use Rattle.svr_elab_part.specs.Seen.{part_of, range_part_of};
ghost use Rattle.svr_elab_part.specs.Shapes.{both_known};
ghost use Rattle.svr_elab_item.specs.Items as spec;
ghost use Rattle.svr_elab_item.specs.Seen.{dist_part, dist_at, item_part, weight_part};

use crate::list::and_more;
use crate::part::{Around, DistPart, ItemPart};
use crate::tree;
use svr_elab_fault::{Fault, earlier, when};
use svr_elab_part::{Part, RangePart};
use svr_operator::Share;
use svr_refusal::Refusal;
use svr_typed::{NoMemory, TDistItem, TExpr, TRange};

/// The fault of a weight, which may read no property that can be random, and whether it reads a cyclic one.
fn weight_known(weight: &Option<(Share, Part)>) -> (Option<Fault>, bool)
    ensures fault { result.0 ≡ spec.weight_faults first_one (option_map weight_part weight.now) }
    ensures cyclic { result.1 ≡ spec.weight_cyclic first_one (option_map weight_part weight.now) }
{
    match weight {
        None => (None, false),
        Some((_, part)) => {
            let open = when(part.reads.is_open(), part.at, Refusal::StateNeeded);
            (earlier(part.fault, open), part.reads.cyclic)
        }
    }
}

fn without_weight(range: Option<TRange>) -> Option<TDistItem>
    ensures { option_map dist_term result ≡ option_map (λ r. record { range = r; weight = None }) (option_map range_term range) }
{
    match range {
        None => None,
        Some(range) => Some(TDistItem::new(range, None)),
    }
}

fn with_weight(range: Option<TRange>, share: Share, weight: Option<TExpr>) -> Option<TDistItem>
    ensures { option_map dist_term result ≡ both_known (λ r w. record { range = r; weight = Some (share, w) }) (option_map range_term range) (option_map expr_term weight) }
{
    match range.zip(weight) {
        None => None,
        Some((range, weight)) => Some(TDistItem::new(range, Some((share, weight)))),
    }
}

fn member_tree(range: RangePart, weight: Option<(Share, Part)>) -> Option<TDistItem>
    ensures { option_map dist_term result ≡ spec.dist_member_tree first_one (range_part_of range) (option_map weight_part weight) }
{
    match weight {
        None => without_weight(range.tree),
        Some((share, part)) => with_weight(range.tree, share, part.tree),
    }
}

/// Whether the members so far, one more or its weight read a cyclic random property.
fn is_any_cyclic(dist: bool, range: bool, weight: bool) -> bool
    ensures { result ≡ (dist || (range || weight)) }
{
    dist || (range || weight)
}

/// One more member of a distribution, with its weight where one is written (IEEE 1800-2017, 18.5.4). A weight may read no property that can be random.
pub fn and_dist(
    dist: DistPart,
    range: RangePart,
    weight: Option<(Share, Part)>,
) -> Result<DistPart, NoMemory>
    ensures { IfOk result (λ d. dist_part d ≡ spec.and_dist first_one (dist_part dist) (range_part_of range) (option_map weight_part weight)) }
{
    let (weight_fault, weight_cyclic) = weight_known(&weight);
    let member_fault = earlier(range.fault, weight_fault);
    let cyclic = is_any_cyclic(dist.cyclic, range.reads.cyclic, weight_cyclic);
    let fault = earlier(dist.fault, member_fault);
    Ok(DistPart {
        tree: and_more(dist.tree, member_tree(range, weight))?,
        fault,
        cyclic,
    })
}

/// What the whole of a distribution is refused for, `at` being the token `dist`.
fn dist_fault(part: &Part, at: u32, dist: &DistPart) -> Option<Fault>
    ensures { result ≡ spec.dist_faults first_one (part_of part.now) at (dist_part dist.now) }
{
    let cyclic = when(part.reads.cyclic, at, Refusal::DistOnRandc);
    let fixed = when(!part.reads.is_open(), at, Refusal::DistWithoutRand);
    earlier(dist.fault, earlier(cyclic, fixed))
}

fn is_dealt_cyclic(part: &Part, dist: &DistPart) -> bool
    ensures { result ≡ (part.now.reads.cyclic || dist.now.cyclic) }
{
    part.reads.cyclic || dist.cyclic
}

/// What a soft item is refused for that reads a cyclic random property, or stands under a guard or in a loop that does.
fn soft_fault(soft: bool, at: u32, around: Around, cyclic: bool) -> Option<Fault>
    ensures { result ≡ spec.when_cyclic first_one soft at around cyclic }
{
    let refused = soft && (around.cyclic || cyclic);
    when(refused, at, Refusal::SoftOnRandc)
}

/// An expression without a distribution.
fn expression_item(soft: bool, at: u32, around: Around, part: Part) -> ItemPart
    ensures { item_part result ≡ spec.plain_item first_one soft at around (part_of part) None }
{
    let fault = earlier(part.fault, soft_fault(soft, at, around, part.reads.cyclic));
    ItemPart {
        tree: tree::plain(soft, part.tree),
        fault,
    }
}

/// An expression at the token `at`, with its distribution and the token `dist` where it has one (IEEE 1800-2017, 18.5.3, 18.5.4 and 18.5.14). The left side of a distribution reads a property that can be random, and no cyclic one; no soft item or guard around it reads a cyclic one.
pub fn plain_item(
    soft: bool,
    at: u32,
    around: Around,
    part: Part,
    dist: Option<(u32, DistPart)>,
) -> ItemPart
    ensures { item_part result ≡ spec.plain_item first_one soft at around (part_of part) (option_map dist_at dist) }
{
    let Some((place, dist)) = dist else {
        return expression_item(soft, at, around, part);
    };
    let whole = dist_fault(&part, place, &dist);
    let own = soft_fault(soft, at, around, is_dealt_cyclic(&part, &dist));
    let fault = earlier(part.fault, earlier(whole, own));
    ItemPart {
        tree: tree::dealt(soft, part.tree, dist.tree),
        fault,
    }
}
