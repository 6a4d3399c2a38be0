// Unit propagation, with a counter of its own.

ghost use Rattle.std.specs.Prelude.{◌≡◌, IfNone, IfSome};
ghost use Rattle.svr_chain.specs.Same.{SameClauses};
ghost use Rattle.svr_trail.specs.Trail.{IsClosed, IsFault, IsGrown};

use std::marker::Brand;
use std::sync::ledger::{Blank, Ledger};
use svr_cdcl::Search;
use svr_watch::Steps;

fn count_visits<L: Ledger>(blank: Blank, search: &mut Search) -> Option<u64>
    requires name { blank.name ≡ L.name }
    requires parts { blank.parts ≡ L.parts }
    requires one { blank.parts ≡ 1 }
    ensures kept { search.new ≡ record search.old { clauses = search.new.clauses; entries = search.new.entries } }
    ensures same { SameClauses search.old.clauses search.new.clauses }
    ensures grown { IsGrown search.new.clauses search.old.entries search.new.entries }
    ensures fault { IfSome result (IsFault search.new.clauses search.new.entries) }
    ensures closed { IfNone result (IsClosed search.new.entries search.new.clauses) }
{
    let mut steps: Steps<L> = Steps::new(blank);
    search.propagate(&mut steps)
}

/// Sets all that the clauses force, or answers the number of a false clause.
pub fn propagate(search: &mut Search) -> Option<u64>
    ensures kept { search.new ≡ record search.old { clauses = search.new.clauses; entries = search.new.entries } }
    ensures same { SameClauses search.old.clauses search.new.clauses }
    ensures grown { IsGrown search.new.clauses search.old.entries search.new.entries }
    ensures fault { IfSome result (IsFault search.new.clauses search.new.entries) }
    ensures closed { IfNone result (IsClosed search.new.entries search.new.clauses) }
{
    count_visits::<Brand>(Blank::new(1), search)
}
