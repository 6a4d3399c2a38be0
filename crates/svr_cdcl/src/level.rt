// The level at which a derived clause is learned.

ghost use Rattle.std.specs.Prelude.{◌≡◌, ◌⊎◌, [], Contains, ℕ, ◌<◌, ◌≤◌, ◌&&◌, ◌||◌, true, None, length, slice_index, slice_index_or, take};
ghost use Rattle.svr_chain.specs.Clauses.{same_lit};
ghost use Rattle.svr_cdcl.specs.Learned.{IsLowest, is_explained};
ghost use Rattle.svr_cdcl.specs.Marks.{is_before};
ghost use Rattle.svr_trail.specs.declared.Entry.{Entry};
ghost use Rattle.svr_trail.specs.Trail.{IsQuiet, IsUnit, is_false, is_false_but, value_in};

use crate::marks::is_kept;
use svr_chain::{Lit, has_lit};
use svr_trail::Trail;

/// Whether the last place, if there is one, is below another.
fn is_before(last: Option<usize>, place: usize) -> bool
    ensures { result ≡ is_before last place }
{
    match last {
        None => true,
        Some(at) => at < place,
    }
}

/// The later one of a last place and that of the entry that made a literal false, which counts unless it is the pivot.
fn later(trail: &Trail, pivot: Lit, last: Option<usize>, lit: Lit) -> Option<usize>
    ensures { (h : ℕ) → h ≤ length trail.now.entries → is_before result h
        ≡ (is_before last h && (same_lit lit pivot || is_false (value_in (take h trail.now.entries) lit))) }
{
    if is_kept(Some(pivot), lit) {
        return last;
    }
    let at = trail.falsified_at(lit);
    if is_before(last, at) { Some(at) } else { last }
}

/// The last of the places whose entries made the literals but the pivot false.
fn last_besides(trail: &Trail, pivot: Lit, lits: &[Lit]) -> Option<usize>
    ensures { (h : ℕ) → h ≤ length trail.now.entries
        → is_false_but (take h trail.now.entries) pivot lits.now ≡ is_before result h }
{
    let mut last = None;
    for lit in lits {
        last = later(trail, pivot, last, *lit);
    }
    last
}

/// The lowest level up to `top` at whose end the pivot is open and the other literals are false.
pub fn lowest_level(trail: &Trail, ends: &[usize], top: usize, pivot: Lit, lits: &[Lit]) -> usize
    requires top { top < length ends.now }
    requires rising { (j k : ℕ) → j < k → k < length ends.now
        → slice_index ends.now j < slice_index ends.now k }
    requires short { (j : ℕ) → j < length ends.now
        → slice_index ends.now j < length trail.now.entries }
    requires unit { IsUnit (take (slice_index ends.now top) trail.now.entries) lits.now pivot }
    ensures within { result < length ends.now }
    ensures unit { IsUnit (take (slice_index ends.now result) trail.now.entries) lits.now pivot }
    ensures quiet { (j : ℕ) → j < result
        → IsQuiet (take (slice_index ends.now j) trail.now.entries) lits.now }
{
    let last = last_besides(trail, pivot, lits);
    let mut level = top;
    'down: while level > 0 {
        let lower = ends[level - 1];
        if !is_before(last, lower) {
            return level;
        }
        level -= 1;
    }
    level
}

/// The lowest level at whose end just one of the negated decisions is open, or 0 where there are none.
pub fn level_of_decisions(trail: &Trail, ends: &[usize], lits: &[Lit]) -> usize
    requires rising { (j k : ℕ) → j < k → k < length ends.now
        → slice_index ends.now j < slice_index ends.now k }
    requires short { (j : ℕ) → j < length ends.now
        → slice_index ends.now j < length trail.now.entries }
    requires starts { (i : ℕ) → (e : Entry) → i < length trail.now.entries
        → (slice_index_or trail.now.entries i e).reason ≡ None → Contains ends.now i }
    requires explained { is_explained trail.now.entries None lits.now ≡ true }
    ensures { ((lits.now ≡ []) × (result ≡ 0)) ⊎ IsLowest trail.now.entries ends.now lits.now result }
{
    let mut top = ends.len();
    let _ = trail.len();
    'down: while top > 0 {
        let base = ends[top - 1];
        let pivot = trail.entry(base).lit.flipped();
        if has_lit(lits, pivot) {
            return lowest_level(trail, ends, top - 1, pivot, lits);
        }
        top -= 1;
    }
    0
}
