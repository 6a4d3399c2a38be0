// Members of `unique` (IEEE 1800-2017, 18.5.5) by how many they are and what they weigh together, so that no pair of them is looked at.

ghost use Rattle.std.specs.Prelude.{◌≡◌};
ghost use Rattle.svr_typed.specs.ExprTerm.{expr_term};
ghost use Rattle.svr_eval.specs.Typed.{IsTyped};
ghost use Rattle.svr_frame.specs.Frame.{frame_term};
ghost use Rattle.svr_frame.specs.Weight.{capped};
ghost use Rattle.svr_weight.specs.Costs.{own_cost};
ghost use Rattle.svr_weight.specs.Weighing.{member_count, mentioned_by};
ghost use Rattle.svr_weight.specs.Tallied as spec;

use crate::around::{Around, Mentions, mentioned_by};
use crate::cost::{add, array_of, own_cost, times};
use svr_frame::{Frame, Part, size_at};
use svr_typed::TExpr;

/// A member: what it mentions, how many it stands for, and what it weighs alone.
#[derive(Clone, Copy)]
pub(crate) struct Member {
    pub(crate) mentions: Mentions,
    pub(crate) count: u32,
    pub(crate) own: u128,
}

/// Members together: how many they are, and what they weigh.
#[derive(Clone, Copy)]
pub(crate) struct Tally {
    pub(crate) count: u128,
    pub(crate) weight: u128,
}

/// For each way in which a member can mention what decides whether a pair counts: the members that count beside it.
#[derive(Clone, Copy)]
pub(crate) struct Tallies {
    pub(crate) neither: Tally,
    pub(crate) wanted: Tally,
    pub(crate) barred: Tally,
    pub(crate) both: Tally,
}

/// How many members of `unique` an expression stands for: an array for its elements.
pub(crate) fn member_count(e: &TExpr, frame: &Frame, sizes: &[u32]) -> u32
    ensures { result ≡ member_count (frame_term frame.now) sizes.now (expr_term e.now) }
{
    match array_of(e, frame) {
        Some(array) => size_at(sizes, array),
        None => 1,
    }
}

impl Member {
    pub(crate) fn of(e: &TExpr, frame: &Frame, part: Part, sizes: &[u32]) -> Member
        requires { IsTyped (expr_term e.now) }
        ensures mentions { result.mentions ≡ mentioned_by (frame_term frame.now) part (expr_term e.now) }
        ensures count { result.count ≡ member_count (frame_term frame.now) sizes.now (expr_term e.now) }
        ensures own { result.own ≡ capped (own_cost (frame_term frame.now) part sizes.now (expr_term e.now)) }
    {
        Member {
            mentions: mentioned_by(e, frame, part),
            count: member_count(e, frame, sizes),
            own: own_cost(e, frame, part, sizes),
        }
    }
}

impl Tally {
    fn none() -> Tally
        ensures { result ≡ spec.none }
    {
        Tally {
            count: 0,
            weight: 0,
        }
    }

    /// With so many members more, of this weight each.
    fn plus(self, count: u32, each: u128) -> Tally
        ensures { result ≡ spec.tallied self count each }
    {
        let count = u128::from(count);
        Tally {
            count: add(self.count, count),
            weight: add(self.weight, times(count, each)),
        }
    }

    /// With one member more, where a pair of it counts with one that mentions so.
    fn plus_if_beside(self, mentions: Mentions, member: Member, around: Around, part: Part) -> Tally
        ensures { result ≡ spec.tallied_beside part around self mentions member }
    {
        if around.counts(mentions.joined(member.mentions), part) {
            self.plus(member.count, member.own)
        } else {
            self
        }
    }
}

impl Tallies {
    /// No members.
    pub(crate) fn none() -> Tallies
        ensures { result ≡ spec.nobody }
    {
        Tallies {
            neither: Tally::none(),
            wanted: Tally::none(),
            barred: Tally::none(),
            both: Tally::none(),
        }
    }

    /// With one member more.
    pub(crate) fn plus(self, member: Member, around: Around, part: Part) -> Tallies
        ensures { result ≡ spec.with_member part around self member }
    {
        let neither = Mentions::new(false, false);
        let wanted = Mentions::new(true, false);
        let barred = Mentions::new(false, true);
        let both = Mentions::new(true, true);
        Tallies {
            neither: self.neither.plus_if_beside(neither, member, around, part),
            wanted: self.wanted.plus_if_beside(wanted, member, around, part),
            barred: self.barred.plus_if_beside(barred, member, around, part),
            both: self.both.plus_if_beside(both, member, around, part),
        }
    }

    /// The members that count beside one that mentions so.
    pub(crate) fn beside(self, mentions: Mentions) -> Tally
        ensures { result ≡ spec.beside self mentions }
    {
        if mentions.wanted {
            if mentions.barred {
                self.both
            } else {
                self.wanted
            }
        } else {
            if mentions.barred {
                self.barred
            } else {
                self.neither
            }
        }
    }
}
