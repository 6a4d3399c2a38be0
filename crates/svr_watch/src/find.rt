// Clauses found again.

ghost use Rattle.std.specs.Prelude.{◌≡◌, ◌+◌, ◌<◌, ℕ, true, false, map, IfSome, IfNone};
ghost use Rattle.std.specs.List.{All};
ghost use Rattle.svr_arena.specs.Layout.{is_in, watched};
ghost use Rattle.svr_chain.specs.Clauses.{is_within};
ghost use Rattle.svr_watch.specs.Codes.{code_of, lit_of};
ghost use Rattle.svr_watch.specs.Store.{IsNoPart, IsPartAt, IsPartIn, IsPassedBy, lits_of};

use crate::codes::{code_of, lit_of};
use crate::store::Held;
use svr_arena::Arena;
use svr_chain::{Lit, are_within, has_lit};

/// Whether each literal, by their numbers, is among these.
fn are_codes_within(codes: &[u64], lits: &[Lit]) -> bool
    ensures { result ≡ is_within (map lit_of codes.now) lits.now }
{
    for code in codes {
        if !has_lit(lits, lit_of(*code)) {
            return false;
        }
    }
    true
}

/// The number of a literal, where it is below so many.
fn code_below(lit: Lit, codes: u64) -> Option<u64>
    ensures some { IfSome result (λ n. (n ≡ code_of lit) × (n < codes)) }
    ensures none { IfNone result (code_of lit < codes → ⊥) }
{
    if lit.var.saturating_sub(1) > codes / 2 {
        return None;
    }
    let code = code_of(lit);
    if code < codes { Some(code) } else { None }
}

/// The first clause on the list of a literal, by its number, that is a part of these literals.
fn part_on(arena: &Arena, code: u64, lits: &[Lit]) -> Option<u64>
    requires { code < arena.now.codes }
    ensures some { IfSome result (IsPartIn arena.now lits.now) }
    ensures none { IfNone result ((c : ℕ) → is_in c (watched arena.now code) ≡ true → is_within (lits_of arena.now c) lits.now ≡ false) }
{
    // For the proof: what is known of every arena.
    let _ = arena.codes();
    let mut at = arena.first_watch(code);
    'list: while let Some(clause) = at {
        if are_codes_within(arena.lits(clause), lits) {
            return Some(clause);
        }
        at = arena.next_watch(clause, code);
    }
    None
}

/// The first clause that watches a literal and is a part of these literals.
fn watching_part(arena: &Arena, lit: Lit, lits: &[Lit]) -> Option<u64>
    ensures some { IfSome result (IsPartIn arena.now lits.now) }
    ensures none { IfNone result (IsPassedBy arena.now lits.now lit) }
{
    match code_below(lit, arena.codes()) {
        Some(code) => part_on(arena, code, lits),
        None => None,
    }
}

/// A clause of the arena that is a part of these literals. It watches one of them.
pub fn watched_part(arena: &Arena, lits: &[Lit]) -> Option<u64>
    ensures some { IfSome result (IsPartIn arena.now lits.now) }
    ensures none { IfNone result (All (IsPassedBy arena.now lits.now) lits.now) }
{
    for lit in lits {
        if let Some(clause) = watching_part(arena, *lit, lits) {
            return Some(clause);
        }
    }
    None
}

/// Whether the clause at a place is apart from the arena and a part of these literals.
fn is_part_at(clauses: &[Held], place: usize, lits: &[Lit]) -> bool
    ensures yes { result ≡ true → IsPartAt clauses.now lits.now place }
    ensures no { result ≡ false → IsNoPart clauses.now lits.now place }
{
    match clauses.get(place) {
        Some(Held::Apart(clause)) => are_within(clause.lits(), lits),
        Some(Held::Watched(_)) => false,
        None => false,
    }
}

/// The number of the first clause at these places that is apart from the arena and a part of these literals.
pub fn apart_part(clauses: &[Held], places: &[usize], lits: &[Lit]) -> Option<u64>
    ensures some { IfSome result (λ n. (i : ℕ) × (n ≡ i + 1) × IsPartAt clauses.now lits.now i) }
    ensures none { IfNone result (All (IsNoPart clauses.now lits.now) places.now) }
{
    // For the proof: how long a list can be.
    let _ = clauses.len();
    for place in places {
        if is_part_at(clauses, *place, lits) {
            return Some(*place as u64 + 1);
        }
    }
    None
}
