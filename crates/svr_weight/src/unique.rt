// `unique` (IEEE 1800-2017, 18.5.5): each two of its members, where an array stands for its elements.

ghost use Rattle.std.specs.Prelude.{◌≡◌, ◌≤◌, ◌+◌, ◌-◌, ◌*◌, ◌/◌, ◌^◌, true, false};
ghost use Rattle.svr_typed.specs.ExprTerm.{expr_term, expr_terms};
ghost use Rattle.svr_eval.specs.Typed.{IsTyped, AreTyped};
ghost use Rattle.svr_frame.specs.Frame.{frame_term};
ghost use Rattle.svr_frame.specs.Weight.{capped};
ghost use Rattle.svr_weight.specs.Tallied as tallied;
ghost use Rattle.svr_weight.specs.Weighing as spec;

use crate::around::{Around, guarded_weight, mentioned_by};
use crate::cost::{add, pair_cost, times};
use crate::tally::{Member, Tallies, Tally, member_count};
use svr_frame::{Frame, Part};
use svr_typed::TExpr;

/// How many pairs so many members make.
#[tactic(auto, using(crate::proofs::Caps::pair_number_is))]
fn pair_count(members: u32) -> u128
    ensures { result ≡ spec.pair_number members }
{
    let members = u128::from(members);
    members * members.saturating_sub(1) / 2
}

/// One pair of two members of `unique`.
#[tactic(auto, using(crate::proofs::Caps::leaf_capped))]
fn pair_weight(
    x: &TExpr,
    y: &TExpr,
    around: Around,
    frame: &Frame,
    part: Part,
    sizes: &[u32],
) -> u128
    requires x_typed { IsTyped (expr_term x.now) }
    requires y_typed { IsTyped (expr_term y.now) }
    ensures { result ≡ capped (spec.pair_weight (frame_term frame.now) part sizes.now around (expr_term x.now) (expr_term y.now)) }
{
    let both = mentioned_by(x, frame, part).joined(mentioned_by(y, frame, part));
    around.leaf_weight(false, both, pair_cost(x, y, frame, part, sizes), 1, part)
}

/// One pair of `x` with each member that `y` stands for.
#[tactic(auto, using(crate::proofs::Caps::mul_capped))]
fn pairs_weight(
    x: &TExpr,
    y: &TExpr,
    around: Around,
    frame: &Frame,
    part: Part,
    sizes: &[u32],
) -> u128
    requires x_typed { IsTyped (expr_term x.now) }
    requires y_typed { IsTyped (expr_term y.now) }
    ensures { result ≡ capped (spec.pairs_weight (frame_term frame.now) part sizes.now around (expr_term x.now) (expr_term y.now)) }
{
    let count = u128::from(member_count(y, frame, sizes));
    times(count, pair_weight(x, y, around, frame, part, sizes))
}

/// One pair of `x` with each of the others.
fn against_weight(
    x: &TExpr,
    others: &[TExpr],
    around: Around,
    frame: &Frame,
    part: Part,
    sizes: &[u32],
) -> u128
    requires x_typed { IsTyped (expr_term x.now) }
    requires typed { AreTyped (expr_terms others.now) }
    ensures { result ≡ capped (spec.against_weight (frame_term frame.now) part sizes.now around (expr_term x.now) (expr_terms others.now)) }
{
    let mut sum = 0;
    for y in others {
        sum = add(sum, pairs_weight(x, y, around, frame, part, sizes));
    }
    sum
}

/// The pairs of the members that `x` stands for, with one another and with those of the others.
#[tactic(auto, using(crate::proofs::Caps::mul_capped))]
fn group_weight(
    x: &TExpr,
    others: &[TExpr],
    around: Around,
    frame: &Frame,
    part: Part,
    sizes: &[u32],
) -> u128
    requires x_typed { IsTyped (expr_term x.now) }
    requires typed { AreTyped (expr_terms others.now) }
    ensures { result ≡ capped (spec.group_weight (frame_term frame.now) part sizes.now around (expr_term x.now) (expr_terms others.now)) }
{
    let count = member_count(x, frame, sizes);
    let each = pair_weight(x, x, around, frame, part, sizes);
    let against = against_weight(x, others, around, frame, part, sizes);
    add(
        times(pair_count(count), each),
        times(u128::from(count), against),
    )
}

/// Members of any widths, pair by pair.
fn weight_of_mixed(
    members: &[TExpr],
    around: Around,
    frame: &Frame,
    part: Part,
    sizes: &[u32],
) -> u128
    requires { AreTyped (expr_terms members.now) }
    ensures { result ≡ capped (spec.unique_weight (frame_term frame.now) part sizes.now around (expr_terms members.now)) }
{
    let mut sum = 0;
    let mut left = members;
    while let [x, others @ ..] = left {
        sum = add(sum, group_weight(x, others, around, frame, part, sizes));
        left = others;
    }
    sum
}

/// What a member of `width` bits weighs in a pair with one that weighs nothing.
#[tactic(auto, using(crate::proofs::Caps::guarded_capped))]
fn half_weight(member: Member, width: u8, around: Around) -> u128
    ensures { result ≡ capped (tallied.half_weight around width member) }
{
    guarded_weight(around.tests, add(u128::from(width), member.own), 1)
}

/// A member of `width` bits with each of others.
#[tactic(auto, using(crate::proofs::Caps::mul_capped))]
fn beside_weight(member: Member, others: Tally, width: u8, around: Around) -> u128
    ensures { result ≡ capped (tallied.beside_weight around width member others) }
{
    let half = half_weight(member, width, around);
    add(times(others.count, half), others.weight)
}

/// What two expressions of this weight and width weigh as a pair.
fn twice(own: u128, width: u8) -> u128
    ensures { result ≡ capped (width + own + own) }
{
    add(add(u128::from(width), own), own)
}

/// One pair of the members that one stands for.
#[tactic(auto, using(crate::proofs::Caps::leaf_capped))]
fn pair_of_own(member: Member, width: u8, around: Around, part: Part) -> u128
    ensures { result ≡ capped (spec.leaf_weight part around false (spec.joined member.mentions member.mentions) (width + member.own + member.own) 1) }
{
    let both = member.mentions.joined(member.mentions);
    around.leaf_weight(false, both, twice(member.own, width), 1, part)
}

/// The pairs of the members that one stands for, with one another.
#[tactic(auto, using(crate::proofs::Caps::mul_capped))]
fn own_weight(member: Member, width: u8, around: Around, part: Part) -> u128
    ensures { result ≡ capped (tallied.own_weight part around width member) }
{
    let each = pair_of_own(member, width, around, part);
    times(pair_count(member.count), each)
}

/// The pairs of the members of `width` bits that one stands for, with one another and with those behind it.
#[tactic(auto, using(crate::proofs::Caps::mul_capped))]
fn counted_weight(member: Member, behind: Tallies, width: u8, around: Around, part: Part) -> u128
    ensures { result ≡ capped (tallied.counted_weight part around width member behind) }
{
    let others = behind.beside(member.mentions);
    let against = beside_weight(member, others, width, around);
    add(
        own_weight(member, width, around, part),
        times(u128::from(member.count), against),
    )
}

/// Members of one width: what stands behind each is counted, so that none is compared with all others.
fn weight_of_even(
    members: &[TExpr],
    width: u8,
    around: Around,
    frame: &Frame,
    part: Part,
    sizes: &[u32],
) -> u128
    requires typed { AreTyped (expr_terms members.now) }
    requires even { tallied.all_have width (expr_terms members.now) ≡ true }
    ensures { result ≡ capped (spec.unique_weight (frame_term frame.now) part sizes.now around (expr_terms members.now)) }
{
    let mut sum = 0;
    let mut behind = Tallies::none();
    let mut at = members.len();
    while at > 0 {
        at -= 1;
        let member = Member::of(&members[at], frame, part, sizes);
        sum = add(sum, counted_weight(member, behind, width, around, part));
        behind = behind.plus(member, around, part);
    }
    sum
}

/// The width of the first member, 1 where there is none.
fn first_width(members: &[TExpr]) -> u8
    requires { AreTyped (expr_terms members.now) }
    ensures { 1 ≤ result }
{
    match members.first() {
        Some(member) => member.width,
        None => 1,
    }
}

/// Whether each member has this width.
fn all_have(members: &[TExpr], width: u8) -> bool
    requires { AreTyped (expr_terms members.now) }
    ensures { result ≡ tallied.all_have width (expr_terms members.now) }
{
    for member in members {
        if member.width != width {
            return false;
        }
    }
    true
}

/// The weight of `unique`. Its members have equivalent types (IEEE 1800-2017, 18.5.5), so one width; only others are looked at pair by pair.
pub(crate) fn unique_weight(
    members: &[TExpr],
    around: Around,
    frame: &Frame,
    part: Part,
    sizes: &[u32],
) -> u128
    requires { AreTyped (expr_terms members.now) }
    ensures { result ≡ capped (spec.unique_weight (frame_term frame.now) part sizes.now around (expr_terms members.now)) }
{
    let width = first_width(members);
    if all_have(members, width) {
        weight_of_even(members, width, around, frame, part, sizes)
    } else {
        weight_of_mixed(members, around, frame, part, sizes)
    }
}
