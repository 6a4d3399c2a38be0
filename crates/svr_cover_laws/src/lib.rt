//! What the counters of coverage are: numbers of samples (IEEE 1800-2017, 19.5, 19.6 and 19.8).
//!
//! `specs/Parts.antt` says which counters the parts of groups have, and when no two parts share one. `specs/Counted.antt` says what it is that the counters of groups, of bins and of tuples are numbers of samples.
#![tactic(auto)]

ghost use Rattle.std.specs.Prelude.{◌<◌, ◌^◌, ℕ, List, length};
ghost use Rattle.std.specs.List.{All};
ghost use Rattle.svr_cover.specs.declared.group.Group.{Group};
ghost use Rattle.svr_cover_laws.specs.Parts.{AreApart};
ghost use Rattle.svr_cover_laws.specs.Counted.{IsStored, counts_behind, GroupsAreCounted, BinsAreCounted, TuplesAreCounted};

/// Behind samples the count of a group is the number of samples of exactly its class.
pub fn counts_of_groups_are_numbers_of_samples<S>()
    ensures { (class : S → ℕ) (values : S → List (List ℕ)) (groups : List Group) (counters : ℕ) (ss : List S) → AreApart groups counters → All (λ s. IsStored (values s)) ss → length ss < 2 ^ 64 → GroupsAreCounted class groups ss (counts_behind class values groups counters ss) }
{}

/// The count of a bin is the number of those whose value of its point is in one of the bin's ranges.
pub fn counts_of_bins_are_numbers_of_samples<S>()
    ensures { (class : S → ℕ) (values : S → List (List ℕ)) (groups : List Group) (counters : ℕ) (ss : List S) → AreApart groups counters → All (λ s. IsStored (values s)) ss → length ss < 2 ^ 64 → BinsAreCounted class values groups ss (counts_behind class values groups counters ss) }
{}

/// The count of a tuple of a cross is the number of those whose values are in all its bins, where the last point is the fastest.
pub fn counts_of_tuples_are_numbers_of_samples<S>()
    ensures { (class : S → ℕ) (values : S → List (List ℕ)) (groups : List Group) (counters : ℕ) (ss : List S) → AreApart groups counters → All (λ s. IsStored (values s)) ss → length ss < 2 ^ 64 → TuplesAreCounted class values groups ss (counts_behind class values groups counters ss) }
{}
