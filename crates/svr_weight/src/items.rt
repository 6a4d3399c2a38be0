// What constraint items weigh, without their occurrences one by one.

ghost use Rattle.std.specs.Prelude.{◌≡◌, ◌≤◌, ◌+◌, ◌-◌, ◌*◌, ◌/◌, ◌^◌, option_map};
ghost use Rattle.svr_typed.specs.ExprTerm.{expr_term};
ghost use Rattle.svr_typed.specs.ItemTerm.{item_term, item_terms, dist_terms};
ghost use Rattle.svr_eval.specs.Typed.{IsTyped};
ghost use Rattle.svr_eval.specs.Holds.{DistIsTyped, MembersAreTyped, ItemIsTyped, ItemsAreTyped};
ghost use Rattle.svr_frame.specs.Frame.{frame_term};
ghost use Rattle.svr_frame.specs.Weight.{capped};
ghost use Rattle.svr_weight.specs.Weighing as spec;

use crate::around::{Around, members_mention, mentioned_by};
use crate::cost::{add, members_cost, own_cost, times};
use crate::unique::unique_weight;
use sqlite_items::Items;
use svr_frame::{Frame, Part, size_at};
use svr_typed::{TDistItem, TExpr, TItem};

/// An expression, or with `dist` a distribution (IEEE 1800-2017, 18.5.4).
#[tactic(auto, using(crate::proofs::Caps::leaf_capped))]
fn plain_weight(
    soft: bool,
    e: &TExpr,
    dist: &Option<Items<TDistItem>>,
    around: Around,
    frame: &Frame,
    part: Part,
    sizes: &[u32],
) -> u128
    requires typed { IsTyped (expr_term e.now) }
    requires dist_typed { DistIsTyped (option_map dist_terms dist.now) }
    ensures { result ≡ capped (spec.plain_weight (frame_term frame.now) part sizes.now around soft (expr_term e.now) (option_map dist_terms dist.now)) }
{
    let own = own_cost(e, frame, part, sizes);
    let mentioned = mentioned_by(e, frame, part);
    match dist {
        None => around.leaf_weight(soft, mentioned, own, e.width, part),
        Some(members) => {
            let members = members.as_slice();
            let all = mentioned.joined(members_mention(members, frame, part));
            let set = members_cost(members, e.width, frame, part, sizes);
            around.leaf_weight(soft, all, add(own, set), 1, part)
        }
    }
}

/// How often the body of a loop stands over an array of this size with rows of `inner` elements (IEEE 1800-2017, 18.5.8.1).
fn turns(size: u32, inner: u32, names: u8) -> u128
    requires { 1 ≤ inner }
    ensures { result ≡ (size / inner) * spec.row_turns inner names }
{
    let in_row = if names == 2 { inner } else { 1 };
    u128::from(size / inner) * u128::from(in_row)
}

/// An item. A loop weighs its size times its body (IEEE 1800-2017, 18.5.8.1); `disable soft` and `solve` weigh nothing.
#[cycle(items)]
fn item_weight(item: &TItem, around: Around, frame: &Frame, part: Part, sizes: &[u32]) -> u128
    requires { ItemIsTyped (item_term item.now) }
    ensures { result ≡ capped (spec.item_weight (frame_term frame.now) part sizes.now around (item_term item.now)) }
{
    match item {
        TItem::Plain { soft, expr, dist } => {
            plain_weight(*soft, expr, dist, around, frame, part, sizes)
        }
        TItem::Unique { members } => {
            unique_weight(members.as_slice(), around, frame, part, sizes)
        }
        TItem::Implies { test, body } => {
            let inner = around.with_test(test, true, frame, part, sizes);
            items_weight(body.as_slice(), inner, frame, part, sizes)
        }
        TItem::Branch { test, yes, no } => {
            let met = around.with_test(test, true, frame, part, sizes);
            let first = items_weight(yes.as_slice(), met, frame, part, sizes);
            match no {
                None => first,
                Some(no) => {
                    let unmet = around.with_test(test, false, frame, part, sizes);
                    add(
                        first,
                        items_weight(no.as_slice(), unmet, frame, part, sizes),
                    )
                }
            }
        }
        TItem::Foreach {
            array,
            inner,
            names,
            body,
        } => {
            let place = around.in_loop_over(*array, frame, part);
            let each = items_weight(body.as_slice(), place, frame, part, sizes);
            times(turns(size_at(sizes, *array), *inner, *names), each)
        }
        TItem::Disable { .. } | TItem::Solve { .. } => 0,
    }
}

/// The sum over items in a place.
#[cycle(items)]
pub(crate) fn items_weight(
    items: &[TItem],
    around: Around,
    frame: &Frame,
    part: Part,
    sizes: &[u32],
) -> u128
    requires { ItemsAreTyped (item_terms items.now) }
    ensures { result ≡ capped (spec.items_weight (frame_term frame.now) part sizes.now around (item_terms items.now)) }
{
    let mut sum = 0;
    for item in items {
        sum = add(sum, item_weight(item, around, frame, part, sizes));
    }
    sum
}
