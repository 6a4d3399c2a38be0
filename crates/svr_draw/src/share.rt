// Shares of a distribution in the words of a call (IEEE 1800-2017, 18.5.4): so many places for each member, in the written order.

ghost use Rattle.std.specs.Prelude.{◌≡◌, ◌≤◌, ◌<◌, ◌+◌, ◌-◌, ◌*◌, ◌/◌, ◌^◌, pos, ◌-ℤ◌, ◌≤ℤ◌, ◌<ℤ◌, [], ℕ, List};
ghost use Rattle.std.specs.List.{list_any};
ghost use Rattle.svr_typed.specs.ExprTerm.{expr_term, range_term, bound_term};
ghost use Rattle.svr_typed.specs.ItemTerm.{dist_term, dist_terms};
ghost use Rattle.svr_eval.specs.Reading.{reading_of};
ghost use Rattle.svr_eval.specs.Typed.{IsTyped, RangeIsTyped, BoundIsTyped, CanRead, RangeCanRead, BoundCanRead};
ghost use Rattle.svr_eval.specs.Holds.{WeightIsTyped, WeightCanRead, MembersAreTyped, MembersCanRead};
ghost use Rattle.svr_frame.specs.Frame.{frame_term, width_of};
ghost use Rattle.svr_eval.specs.Value.{index_read};
ghost use Rattle.svr_frame.specs.Weight.{capped};
ghost use Rattle.svr_draw.specs.Preferred as spec;
ghost use Rattle.svr_draw.specs.Picking as pick;

use svr_eval::{Assign, Env, value};
use svr_frame::{Frame, mentions_random};
use svr_operator::Share;
use svr_typed::{TBound, TDistItem, TExpr, TRange};

/// Whether some range mentions a property that is random in this call.
pub(crate) fn ranges_vary(members: &[TDistItem], frame: &Frame) -> bool
    ensures { result ≡ pick.ranges_vary (frame_term frame.now) (dist_terms members.now) }
{
    for member in members {
        if mentions_random(&member.range, frame) {
            return true;
        }
    }
    false
}

/// A number of places that a word can count.
pub(crate) fn has_places(places: u128) -> bool
    ensures { result ≡ spec.has_places places }
{
    places != 0 && places < 1 << 64
}

/// A bound as a whole number by its own sign (IEEE 1800-2017, 11.8).
fn whole_number(e: &TExpr, here: &Assign) -> i128
    requires typed { IsTyped (expr_term e.now) }
    requires reads { CanRead (reading_of here.now) 0 (expr_term e.now) }
    ensures value { result ≡ index_read (reading_of here.now) [] (expr_term e.now) }
    ensures low { (pos 0 -ℤ pos (2 ^ 63)) ≤ℤ result }
    ensures high { result <ℤ pos (2 ^ 64) }
{
    let bits = value(e, here, &Env::new());
    if e.signed {
        bits.signed()
    } else {
        i128::from(bits.value())
    }
}

/// The least number of a type.
fn least(width: u8, signed: bool) -> i128
    requires low { 1 ≤ width }
    requires high { width ≤ 64 }
    ensures value { result ≡ spec.least width signed }
    ensures low { (pos 0 -ℤ pos (2 ^ 63)) ≤ℤ result }
    ensures high { result <ℤ pos (2 ^ 64) }
{
    if signed { -(1 << (width - 1)) } else { 0 }
}

/// The greatest number of a type.
fn greatest(width: u8, signed: bool) -> i128
    requires low { 1 ≤ width }
    requires high { width ≤ 64 }
    ensures value { result ≡ spec.greatest width signed }
    ensures low { (pos 0 -ℤ pos (2 ^ 63)) ≤ℤ result }
    ensures high { result <ℤ pos (2 ^ 64) }
{
    if signed {
        (1 << (width - 1)) - 1
    } else {
        (1 << width) - 1
    }
}

/// The lower bound of a range. `$` is the least value of the property's type.
fn low_bound(bound: &TBound, prop: u32, frame: &Frame, here: &Assign) -> i128
    requires typed { BoundIsTyped (bound_term bound.now) }
    requires reads { BoundCanRead (reading_of here.now) 0 (bound_term bound.now) }
    requires narrow { 1 ≤ width_of (frame_term frame.now) prop }
    requires wide { width_of (frame_term frame.now) prop ≤ 64 }
    ensures value { result ≡ spec.low_bound (frame_term frame.now) (reading_of here.now) prop (bound_term bound.now) }
    ensures low { (pos 0 -ℤ pos (2 ^ 63)) ≤ℤ result }
    ensures high { result <ℤ pos (2 ^ 64) }
{
    match bound {
        TBound::Value(e) => whole_number(e, here),
        TBound::Dollar => least(frame.width(prop), frame.is_signed(prop)),
    }
}

/// The upper bound of a range. `$` is the greatest value of the property's type.
fn high_bound(bound: &TBound, prop: u32, frame: &Frame, here: &Assign) -> i128
    requires typed { BoundIsTyped (bound_term bound.now) }
    requires reads { BoundCanRead (reading_of here.now) 0 (bound_term bound.now) }
    requires narrow { 1 ≤ width_of (frame_term frame.now) prop }
    requires wide { width_of (frame_term frame.now) prop ≤ 64 }
    ensures value { result ≡ spec.high_bound (frame_term frame.now) (reading_of here.now) prop (bound_term bound.now) }
    ensures low { (pos 0 -ℤ pos (2 ^ 63)) ≤ℤ result }
    ensures high { result <ℤ pos (2 ^ 64) }
{
    match bound {
        TBound::Value(e) => whole_number(e, here),
        TBound::Dollar => greatest(frame.width(prop), frame.is_signed(prop)),
    }
}

/// How many values there are from `low` to `high`.
fn values_between(low: i128, high: i128) -> u128
    requires low_least { (pos 0 -ℤ pos (2 ^ 63)) ≤ℤ low }
    requires low_most { low <ℤ pos (2 ^ 64) }
    requires high_least { (pos 0 -ℤ pos (2 ^ 63)) ≤ℤ high }
    requires high_most { high <ℤ pos (2 ^ 64) }
    ensures value { result ≡ spec.values_between low high }
    ensures most { result ≤ 2 ^ 64 + 2 ^ 63 }
{
    if low <= high {
        (high - low + 1) as u128
    } else {
        0
    }
}

/// A weight as a number: its bits, unsigned.
fn weight_of(member: &TDistItem, here: &Assign) -> u64
    requires typed { WeightIsTyped (dist_term member.now).weight }
    requires reads { WeightCanRead (reading_of here.now) 0 (dist_term member.now).weight }
    ensures { result ≡ spec.weight_in (reading_of here.now) (dist_term member.now).weight }
{
    match &member.weight {
        None => 1,
        Some((_, weight)) => value(weight, here, &Env::new()).value(),
    }
}

fn kind_of(member: &TDistItem) -> Share
    ensures { result ≡ spec.kind_of (dist_term member.now).weight }
{
    match &member.weight {
        None => Share::Each,
        Some((share, _)) => *share,
    }
}

/// The places of a range of so many values: with `:=` so many for each of them, with `:/` for all together.
fn span_places(share: Share, weight: u64, values: u128) -> u128
    ensures { result ≡ capped (spec.span_share share weight (pos 0) values).places }
{
    match share {
        Share::Each => values.saturating_mul(u128::from(weight)),
        Share::Whole => { if values == 0 { 0 } else { u128::from(weight) } }
    }
}

/// How many places a member has, at most the last number of the type.
fn places(member: &TDistItem, prop: u32, frame: &Frame, here: &Assign) -> u128
    requires range_typed { RangeIsTyped (dist_term member.now).range }
    requires weight_typed { WeightIsTyped (dist_term member.now).weight }
    requires range_reads { RangeCanRead (reading_of here.now) 0 (dist_term member.now).range }
    requires weight_reads { WeightCanRead (reading_of here.now) 0 (dist_term member.now).weight }
    requires narrow { 1 ≤ width_of (frame_term frame.now) prop }
    requires wide { width_of (frame_term frame.now) prop ≤ 64 }
    ensures { result ≡ capped (spec.share_of (frame_term frame.now) (reading_of here.now) prop (dist_term member.now)).places }
{
    let weight = weight_of(member, here);
    match &member.range {
        TRange::One(_) => u128::from(weight),
        TRange::Span(low, high) => {
            let first = low_bound(low, prop, frame, here);
            let last = high_bound(high, prop, frame, here);
            span_places(kind_of(member), weight, values_between(first, last))
        }
    }
}

/// The sum, or the last number of the type where it is greater.
fn add(a: u128, b: u128) -> u128
    ensures { result ≡ capped (a + b) }
{
    a.saturating_add(b)
}

/// How many places all members have, at most the last number of the type.
pub(crate) fn total_places(members: &[TDistItem], prop: u32, frame: &Frame, here: &Assign) -> u128
    requires typed { MembersAreTyped (dist_terms members.now) }
    requires reads { MembersCanRead (reading_of here.now) 0 (dist_terms members.now) }
    requires narrow { 1 ≤ width_of (frame_term frame.now) prop }
    requires wide { width_of (frame_term frame.now) prop ≤ 64 }
    ensures { result ≡ capped (spec.places_of (spec.shares_of (frame_term frame.now) (reading_of here.now) prop (dist_terms members.now))) }
{
    let mut sum = 0;
    for member in members {
        sum = add(sum, places(member, prop, frame, here));
    }
    sum
}

/// How far into the values of a range a place is.
#[tactic(auto, using(crate::proofs::Scaled::scaled))]
fn span_value(share: Share, weight: u64, values: u128, at: u128) -> u128
    requires within { at < (spec.span_share share weight (pos 0) values).places }
    requires counted { at < 2 ^ 64 }
    requires most { values ≤ 2 ^ 64 + 2 ^ 63 }
    ensures value { result ≡ pick.span_value share weight values at }
    ensures most { result ≤ 2 ^ 64 + 2 ^ 63 }
{
    let weight = u128::from(weight);
    match share {
        Share::Each => at / weight,
        Share::Whole => at * (values / weight) + at * (values % weight) / weight,
    }
}

/// The value at a place of a member.
fn value_at(member: &TDistItem, at: u128, prop: u32, frame: &Frame, here: &Assign) -> i128
    requires range_typed { RangeIsTyped (dist_term member.now).range }
    requires weight_typed { WeightIsTyped (dist_term member.now).weight }
    requires range_reads { RangeCanRead (reading_of here.now) 0 (dist_term member.now).range }
    requires weight_reads { WeightCanRead (reading_of here.now) 0 (dist_term member.now).weight }
    requires narrow { 1 ≤ width_of (frame_term frame.now) prop }
    requires wide { width_of (frame_term frame.now) prop ≤ 64 }
    requires within { at < (spec.share_of (frame_term frame.now) (reading_of here.now) prop (dist_term member.now)).places }
    requires counted { at < 2 ^ 64 }
    ensures { result ≡ (spec.share_of (frame_term frame.now) (reading_of here.now) prop (dist_term member.now)).value at }
{
    match &member.range {
        TRange::One(e) => whole_number(e, here),
        TRange::Span(low, high) => {
            let first = low_bound(low, prop, frame, here);
            let last = high_bound(high, prop, frame, here);
            let values = values_between(first, last);
            let weight = weight_of(member, here);
            first + span_value(kind_of(member), weight, values, at) as i128
        }
    }
}

/// The value at a place, counted through all members.
pub(crate) fn pick_at(
    members: &[TDistItem],
    at: u128,
    prop: u32,
    frame: &Frame,
    here: &Assign,
) -> i128
    requires typed { MembersAreTyped (dist_terms members.now) }
    requires reads { MembersCanRead (reading_of here.now) 0 (dist_terms members.now) }
    requires narrow { 1 ≤ width_of (frame_term frame.now) prop }
    requires wide { width_of (frame_term frame.now) prop ≤ 64 }
    requires counted { at < 2 ^ 64 }
    ensures { result ≡ spec.pick_at (spec.shares_of (frame_term frame.now) (reading_of here.now) prop (dist_terms members.now)) at }
{
    let mut left = at;
    for member in members {
        let own = places(member, prop, frame, here);
        if left < own {
            return value_at(member, left, prop, frame, here);
        }
        left -= own;
    }
    0
}
