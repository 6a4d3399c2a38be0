// Unit propagation over watch lists.

ghost use Rattle.std.specs.Prelude.{◌≡◌, ◌⊎◌, ℕ, ◌+◌, ◌*◌, ◌≤◌, ◌<◌, true, false, [], Some, List, IfSome, IfNone, drop, length, slice_index, slice_index_or};
ghost use Rattle.svr_arena.specs.Layout.{names, is_in, IsBefore};
ghost use Rattle.svr_arena.specs.Arena.{body, lit_at};
ghost use Rattle.svr_chain.specs.Clauses.{flip, IsWithin};
ghost use Rattle.svr_chain.specs.Log.{named};
ghost use Rattle.svr_trail.specs.declared.Entry.{Entry};
ghost use Rattle.svr_watch.specs.declared.watch.Outcome.TheVariants.{Kept, Moved, False};
ghost use Rattle.svr_watch.specs.Codes.{code_of, lit_of};
ghost use Rattle.svr_watch.specs.Store.{clauses_of, lits_of, watching};
ghost use Rattle.svr_trail.specs.Trail.{Each, HasReason, IsFault, value_in, is_false};
ghost use Rattle.svr_watch.specs.Watch.{AreWatched, IsAdvance, IsNewlyFalse, IsWatched, Leaves, literals_of};

use crate::codes::{code_of, lit_of};
use crate::steps::Steps;
use crate::store::Store;
use std::sync::ledger::Ledger;
use svr_chain::Lit;
use svr_trail::{Entry, Trail};

/// What a visit to a clause of a false literal leaves: the clause stays on the list, it is moved to another, or it is false.
#[derive(Clone, Copy)]
pub enum Outcome {
    Kept,
    Moved,
    False,
}

/// The other one of the first two literals.
fn other_code(codes: &[u64], code: u64) -> u64
    requires { 2 ≤ length codes.now }
    ensures first { slice_index codes.now 0 ≡ code → result ≡ slice_index codes.now 1 }
    ensures second { (slice_index codes.now 0 ≡ code → ⊥) → result ≡ slice_index codes.now 0 }
{
    if codes[0] == code { codes[1] } else { codes[0] }
}

/// A place behind the first two whose literal is not false.
fn spare_place(trail: &Trail, codes: &[u64]) -> Option<usize>
    ensures some { IfSome result (λ j. (2 ≤ j) × (j < length codes.now)
        × (is_false (value_in trail.now.entries (lit_of (slice_index codes.now j))) ≡ false)) }
    ensures none { IfNone result ((j : ℕ) → 2 ≤ j → j < length codes.now
        → is_false (value_in trail.now.entries (lit_of (slice_index codes.now j))) ≡ true) }
{
    let mut place = 2;
    'places: while place < codes.len() {
        if trail.value(lit_of(codes[place])) != Some(false) {
            return Some(place);
        }
        place += 1;
    }
    None
}

/// Whether the literal has this value.
pub fn has_value(trail: &Trail, lit: Lit, value: bool) -> bool
    ensures yes { result ≡ true → value_in trail.now.entries lit ≡ Some value }
    ensures no { result ≡ false → value_in trail.now.entries lit ≡ Some value → ⊥ }
{
    trail.value(lit) == Some(value)
}

/// Looks at a clause that watches a literal which became false.
fn visit(
    store: &mut Store,
    trail: &mut Trail,
    head: usize,
    lit: Lit,
    before: Option<u64>,
    clause: u64,
) -> Outcome
    requires vars { store.old.arena.codes ≡ 2 * trail.old.vars }
    requires within { IsWithin trail.old.vars lit }
    requires reasons { Each (HasReason (clauses_of store.old)) trail.old.entries }
    requires newly { IsNewlyFalse trail.old.entries head lit }
    requires before { IsBefore (watching store.old lit) before clause }
    requires watched { IsWatched trail.old.entries head store.old.arena clause }
    ensures vars { trail.new.vars ≡ trail.old.vars }
    ensures advance { IsAdvance store.old store.new trail.old.entries trail.new.entries }
    ensures list { Leaves result clause (watching store.old lit) (watching store.new lit) }
    ensures done { (result ≡ False → ⊥) → IsWatched trail.new.entries (head + 1) store.new.arena clause }
    ensures fault { result ≡ False → (n : ℕ) → named (clauses_of store.new) n ≡ Some (lits_of store.new.arena clause)
        → IsFault (clauses_of store.new) trail.new.entries n }
{
    let _ = store.vars();
    let codes = store.codes(clause);
    let other = lit_of(other_code(codes, code_of(lit)));
    if has_value(trail, other, true) {
        return Outcome::Kept;
    }
    if let Some(to) = spare_place(trail, codes) {
        store.move_watch(before, clause, lit, to);
        return Outcome::Moved;
    }
    if has_value(trail, other, false) {
        return Outcome::False;
    }
    let reason = Some(store.number(clause));
    trail.put(Entry { lit: other, reason });
    Outcome::Kept
}

/// Looks at the clauses that watch a literal which became false, each counted, up to a false one.
fn follow<L: Ledger>(
    store: &mut Store,
    trail: &mut Trail,
    head: usize,
    lit: Lit,
    steps: &mut Steps<L>,
) -> Option<u64>
    requires vars { store.old.arena.codes ≡ 2 * trail.old.vars }
    requires within { IsWithin trail.old.vars lit }
    requires reasons { Each (HasReason (clauses_of store.old)) trail.old.entries }
    requires newly { IsNewlyFalse trail.old.entries head lit }
    requires watched { AreWatched trail.old.entries head store.old.arena }
    ensures vars { trail.new.vars ≡ trail.old.vars }
    ensures advance { IsAdvance store.old store.new trail.old.entries trail.new.entries }
    ensures done { IfNone result (AreWatched trail.new.entries (head + 1) store.new.arena) }
    ensures fault { IfSome result (IsFault (clauses_of store.new) trail.new.entries) }
    ensures steps { steps.new ≤ steps.old + length (watching store.old lit) }
{
    let _ = store.vars();
    let mut before = None;
    let mut at = store.first_watch(lit);
    'list: while let Some(clause) = at {
        let _ = store.vars();
        steps.tick();
        at = store.next_watch(clause, lit);
        match visit(store, trail, head, lit, before, clause) {
            Outcome::False => return Some(store.number(clause)),
            Outcome::Kept => before = Some(clause),
            Outcome::Moved => {}
        }
    }
    None
}

/// Sets all that the clauses of the arena force, or finds a false clause. The entries before `head` were followed earlier.
pub fn follow_all<L: Ledger>(
    store: &mut Store,
    trail: &mut Trail,
    head: &mut usize,
    steps: &mut Steps<L>,
) -> Option<u64>
    requires vars { store.old.arena.codes ≡ 2 * trail.old.vars }
    requires reasons { Each (HasReason (clauses_of store.old)) trail.old.entries }
    requires head { head.old ≤ length trail.old.entries }
    requires watched { AreWatched trail.old.entries head.old store.old.arena }
    ensures vars { trail.new.vars ≡ trail.old.vars }
    ensures advance { IsAdvance store.old store.new trail.old.entries trail.new.entries }
    ensures low { head.old ≤ head.new }
    ensures high { head.new ≤ length trail.new.entries }
    ensures watched { AreWatched trail.new.entries head.new store.new.arena }
    ensures end { IfNone result (head.new ≡ length trail.new.entries) }
    ensures fault { IfSome result (IsFault (clauses_of store.new) trail.new.entries) }
    ensures steps { steps.new ≤ steps.old + literals_of store.old.arena }
{
    'entries: while *head < trail.len() {
        let _ = store.vars();
        let lit = trail.entry(*head).lit.flipped();
        if let Some(number) = follow(store, trail, *head, lit, steps) {
            return Some(number);
        }
        *head += 1;
    }
    None
}
