// What a search needs to learn a clause: an order of its literals, and the literal that it forces.

ghost use Rattle.std.specs.Prelude.{◌≡◌, ◌⊎◌, ℕ, ◌+◌, ◌*◌, ◌≤◌, ◌<◌, true, false, [], ◌∷◌, ◌++◌, map, Some, None, IfSome, IfNone, length, slice_index};
ghost use Rattle.svr_arena.specs.Arena.{AreLits};
ghost use Rattle.svr_chain.specs.declared.clause.Lit.{Lit};
ghost use Rattle.svr_chain.specs.Clauses.{IsWithin};
ghost use Rattle.svr_chain.specs.Same.{SameLits};
ghost use Rattle.svr_trail.specs.Trail.{IsUnit, value_in};
ghost use Rattle.svr_watch.specs.Codes.{lit_of};
ghost use Rattle.svr_watch.specs.Store.{IsApart};
ghost use Rattle.svr_watch.specs.Watch.{IsLatest, IsRanked, IsReady, after_force, is_false_by};

use crate::codes::lit_of;
use crate::watch::has_value;
use svr_chain::{Lit, have_opposites};
use svr_trail::{Entry, Trail};

/// Of the places from one on, one whose literal became false last, or is not false.
fn latest(trail: &Trail, codes: &[u64], from: usize) -> usize
    requires { from < length codes.now }
    ensures low { from ≤ result }
    ensures high { result < length codes.now }
    ensures last { IsLatest trail.now.entries codes.now from (length codes.now) result }
{
    let mut best = from;
    let mut last = trail.falsified_at(lit_of(codes[from]));
    let mut place = from + 1;
    'places: while place < codes.len() {
        let at = trail.falsified_at(lit_of(codes[place]));
        if at > last {
            best = place;
            last = at;
        }
        place += 1;
    }
    best
}

/// Puts first the two literals that became false last, or are not false.
pub fn rank(trail: &Trail, codes: &mut [u64])
    requires { 2 ≤ length codes.old }
    ensures ranked { IsRanked trail.now.entries codes.new }
    ensures lits { (n : ℕ) → AreLits n codes.old → AreLits n codes.new }
    ensures same { SameLits (map lit_of codes.new) (map lit_of codes.old) }
{
    let first = latest(trail, codes, 0);
    codes.swap(0, first);
    let second = latest(trail, codes, 1);
    codes.swap(1, second);
}

/// The literal that a clause of the arena forces at present.
pub fn forced_watched(trail: &Trail, codes: &[u64]) -> Option<Lit>
    requires ranked { IsRanked trail.now.entries codes.now }
    requires two { 2 ≤ length codes.now }
    requires apart { slice_index codes.now 0 ≡ slice_index codes.now 1 → ⊥ }
    ensures some { IfSome result (IsUnit trail.now.entries (map lit_of codes.now)) }
    ensures none { IfNone result ((p : Lit) → IsUnit trail.now.entries (map lit_of codes.now) p → ⊥) }
    ensures first { IfSome result (λ p. p ≡ lit_of (slice_index codes.now 0)) }
{
    let first = lit_of(codes[0]);
    let second = lit_of(codes[1]);
    if !has_value(trail, second, false) {
        return None;
    }
    match trail.value(first) {
        Some(_) => None,
        None => Some(first),
    }
}

/// The literal that a clause apart from the arena forces at present.
pub fn forced_apart(trail: &Trail, lits: &[Lit]) -> Option<Lit>
    requires { IsApart lits.now }
    ensures some { IfSome result (IsUnit trail.now.entries lits.now) }
    ensures none { IfNone result ((p : Lit) → IsUnit trail.now.entries lits.now p → ⊥) }
{
    if have_opposites(lits) {
        return None;
    }
    let first = *lits.first()?;
    match trail.value(first) {
        Some(_) => None,
        None => Some(first),
    }
}

/// The head from which propagation is to go on after a clause was learned: not after the entry that made its second literal false, where the first one is false too.
pub fn head_with(trail: &Trail, codes: &[u64], head: usize) -> usize
    requires ranked { IsRanked trail.now.entries codes.now }
    requires two { 2 ≤ length codes.now }
    requires head { head ≤ length trail.now.entries }
    ensures lower { result ≤ head }
    ensures ready { IsReady trail.now.entries codes.now result }
{
    let second = lit_of(codes[1]);
    if has_value(trail, lit_of(codes[0]), false) {
        head.min(trail.falsified_at(second))
    } else {
        head
    }
}

/// Sets the literal that a clause forces, if there is one.
pub fn put_forced(trail: &mut Trail, forced: Option<Lit>, number: u64)
    requires within { IfSome forced (IsWithin trail.old.vars) }
    requires open { IfSome forced (λ p. value_in trail.old.entries p ≡ None) }
    ensures { trail.new ≡ record { vars = trail.old.vars; entries = after_force trail.old.entries forced number } }
{
    if let Some(lit) = forced {
        let reason = Some(number);
        trail.put(Entry { lit, reason });
    }
}
