// Unit propagation over the clauses apart from the arena.

ghost use Rattle.std.specs.Prelude.{◌≡◌, ◌⊎◌, ℕ, ◌+◌, ◌*◌, ◌≤◌, ◌<◌, true, false, [], Some, List, IfSome, IfNone, drop, length};
ghost use Rattle.std.specs.List.{All};
ghost use Rattle.svr_chain.specs.declared.clause.Lit.{Lit};
ghost use Rattle.svr_chain.specs.Clauses.{AreWithin, is_tautology};
ghost use Rattle.svr_chain.specs.Log.{named};
ghost use Rattle.svr_trail.specs.Trail.{Each, HasReason, IsFault, IsGrown, is_falsified};
ghost use Rattle.svr_watch.specs.Store.{clauses_of, is_short, one_unless_empty, visits_in};
ghost use Rattle.svr_watch.specs.Watch.{AreSettled, IsSettled};

use crate::steps::Steps;
use crate::store::Store;
use std::sync::ledger::Ledger;
use svr_chain::{Lit, have_opposites};
use svr_trail::{Entry, Trail};

/// Looks at a clause that is a tautology or has fewer than two distinct literals, and sets the literal that it forces. Tells whether the clause is false. Only a clause with one literal is visited.
fn look<L: Ledger>(lits: &[Lit], trail: &mut Trail, number: u64, steps: &mut Steps<L>) -> bool
    requires apart { (is_tautology lits.now ≡ true) ⊎ (is_short lits.now ≡ true) }
    requires within { AreWithin trail.old.vars lits.now }
    ensures vars { trail.new.vars ≡ trail.old.vars }
    ensures grown { (ks : List (List Lit)) → named ks number ≡ Some lits.now → Each (HasReason ks) trail.old.entries → IsGrown ks trail.old.entries trail.new.entries }
    ensures fault { result ≡ true → is_falsified trail.new.entries lits.now ≡ true }
    ensures settled { result ≡ false → IsSettled trail.new.entries lits.now }
    ensures steps { steps.new ≤ steps.old + one_unless_empty lits.now }
{
    if have_opposites(lits) {
        return false;
    }
    let Some(lit) = lits.first() else {
        return true;
    };
    let lit = *lit;
    steps.tick();
    match trail.value(lit) {
        Some(true) => false,
        Some(false) => true,
        None => {
            let reason = Some(number);
            trail.put(Entry { lit, reason });
            false
        }
    }
}

/// Looks at the clauses apart from the arena from a place on, up to a false one.
pub fn look_all<L: Ledger>(
    store: &Store,
    trail: &mut Trail,
    seen: &mut usize,
    steps: &mut Steps<L>,
) -> Option<u64>
    requires within { All (AreWithin trail.old.vars) (clauses_of store.now) }
    requires reasons { Each (HasReason (clauses_of store.now)) trail.old.entries }
    requires settled { AreSettled trail.old.entries seen.old store.now }
    requires high { seen.old ≤ length store.now.held }
    ensures vars { trail.new.vars ≡ trail.old.vars }
    ensures grown { IsGrown (clauses_of store.now) trail.old.entries trail.new.entries }
    ensures settled { AreSettled trail.new.entries seen.new store.now }
    ensures high { seen.new ≤ length store.now.held }
    ensures end { IfNone result (seen.new ≡ length store.now.held) }
    ensures fault { IfSome result (IsFault (clauses_of store.now) trail.new.entries) }
    ensures steps { steps.new ≤ steps.old + visits_in (drop seen.old store.now.held) }
{
    let _ = store.vars();
    'places: while *seen < store.len() {
        if let Some(clause) = store.apart(*seen) {
            let number = *seen as u64 + 1;
            if look(clause.lits(), trail, number, steps) {
                return Some(number);
            }
        }
        *seen += 1;
    }
    None
}
