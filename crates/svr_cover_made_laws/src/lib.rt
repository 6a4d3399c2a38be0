//! The counters that cover groups ask for (IEEE 1800-2017, clause 19): no two parts share one, and each point has the bins that are planned for it.
//!
//! `specs/Planned.antt` says which bins these are.
#![tactic(auto)]

ghost use Rattle.std.specs.Prelude.{◌≡◌, ◌<◌, ◌^◌, List, []};
ghost use Rattle.svr_typed.specs.declared.class.TClass.{TClass};
ghost use Rattle.svr_typed.specs.declared.class.FlatClass.{FlatClass};
ghost use Rattle.svr_cover_text.specs.declared.text.GroupText.{GroupText};
ghost use Rattle.svr_cover_checked.specs.Numbers.{Spelling};
ghost use Rattle.svr_cover_checked.specs.Refusals.{refusals};
ghost use Rattle.svr_cover_made.specs.declared.made.Made.{Made};
ghost use Rattle.svr_cover_made.specs.Made.{IsMade};
ghost use Rattle.svr_cover_made.specs.Plan.{group_plans};
ghost use Rattle.svr_cover_laws.specs.Parts.{AreApart};
ghost use Rattle.svr_cover_made_laws.specs.Planned.{HavePlannedBins};

/// Of groups in which nothing is refused no two parts share a counter.
pub fn made_groups_are_apart()
    ensures { (text : Spelling) (classes : List TClass) (flats : List FlatClass) (groups : List GroupText) (m : Made) → refusals text classes flats groups ≡ [] → m.counters < 2 ^ 64 → IsMade text classes flats groups m → AreApart m.groups m.counters }
{}

/// Each of their points has the bins that are planned for it.
pub fn made_points_have_their_bins()
    ensures { (text : Spelling) (classes : List TClass) (flats : List FlatClass) (groups : List GroupText) (m : Made) → IsMade text classes flats groups m → HavePlannedBins (group_plans text classes flats 0 groups) m.groups }
{}
