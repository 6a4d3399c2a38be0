// The literals seen in an analysis.

ghost use Rattle.std.specs.Prelude.{◌≡◌, ◌≢◌, ℕ, ◌<◌, ◌≤◌, ◌||◌, true, false, not, IfOk, IfSome, IsSome, List, None, Some, length, map, nat_eq, take};
ghost use Rattle.std.specs.List.{list_all};
ghost use Rattle.svr_chain.specs.declared.clause.Lit.{Lit};
ghost use Rattle.svr_chain.specs.Clauses.{AreWithin, has};
ghost use Rattle.svr_chain.specs.Log.{named};
ghost use Rattle.svr_cdcl.specs.Learned.{is_kept};
ghost use Rattle.svr_cdcl.specs.Marks.{AreFalse, Marks, are_passed, is_false_besides, is_marked, is_touched, none_between};
ghost use Rattle.svr_trail.specs.Trail.{is_false, value_in};
ghost use Rattle.svr_watch.specs.Codes.{lit_of};
ghost use Rattle.svr_watch.specs.Store.{clauses_of};

use svr_chain::{Lit, has_lit};
use svr_trail::{Entry, Trail};
use svr_watch::{Held, Store, lit_of};

/// Whether this is the kept literal.
pub fn is_kept(keep: Option<Lit>, lit: Lit) -> bool
    ensures { result ≡ is_kept keep lit }
{
    match keep {
        None => false,
        Some(kept) => lit == kept,
    }
}

/// Whether a literal is false by the entries before a place.
pub fn is_false_before(trail: &Trail, place: usize, lit: Lit) -> bool
    ensures { result ≡ is_false (value_in (take place trail.now.entries) lit) }
{
    match trail.value_before(lit, place) {
        None => false,
        Some(value) => !value,
    }
}

/// Whether the variable of a literal is marked.
pub fn is_marked(marks: &Trail, lit: Lit) -> bool
    ensures { result ≡ is_marked marks.now.entries lit.var }
{
    match marks.value(lit) {
        None => false,
        Some(_) => true,
    }
}

/// Marks the variable of a false literal, unless it is the kept one. Tells whether it was not marked, and the literal stands in the level whose first entry is at `base`.
fn mark(trail: &Trail, marks: &mut Trail, base: usize, lit: Lit, keep: Option<Lit>) -> bool
    requires within { marks.old.vars ≡ trail.now.vars }
    requires falsified { (is_kept keep lit || is_false (value_in trail.now.entries lit)) ≡ true }
    requires lits { AreFalse trail.now.entries marks.old.entries }
    ensures vars { marks.new.vars ≡ marks.old.vars }
    ensures lits { AreFalse trail.now.entries marks.new.entries }
    ensures marked { (v : ℕ) → is_marked marks.new.entries v ≡ (is_marked marks.old.entries v || is_touched keep lit v) }
{
    let _ = trail.len();
    if is_kept(keep, lit) {
        return false;
    }
    if is_marked(marks, lit) {
        return false;
    }
    marks.put(Entry { lit, reason: None });
    trail.falsified_at(lit) >= base
}

/// Marks the literals of a list but the kept one. Tells how many of them are new and of the present level.
fn mark_lits(
    trail: &Trail,
    marks: &mut Trail,
    base: usize,
    lits: &[Lit],
    keep: Option<Lit>,
) -> usize
    requires within { marks.old.vars ≡ trail.now.vars }
    requires falsified { is_false_besides trail.now.entries keep lits.now ≡ true }
    requires lits { AreFalse trail.now.entries marks.old.entries }
    ensures vars { marks.new.vars ≡ marks.old.vars }
    ensures lits { AreFalse trail.now.entries marks.new.entries }
    ensures marked { Marks marks.old.entries marks.new.entries keep lits.now }
{
    let mut count: usize = 0;
    for lit in lits {
        if mark(trail, marks, base, *lit, keep) {
            count = count.saturating_add(1);
        }
    }
    count
}

/// Marks literals by their numbers but the kept one. Tells how many of them are new and of the present level.
fn mark_codes(
    trail: &Trail,
    marks: &mut Trail,
    base: usize,
    codes: &[u64],
    keep: Option<Lit>,
) -> usize
    requires within { marks.old.vars ≡ trail.now.vars }
    requires falsified { is_false_besides trail.now.entries keep (map lit_of codes.now) ≡ true }
    requires lits { AreFalse trail.now.entries marks.old.entries }
    ensures vars { marks.new.vars ≡ marks.old.vars }
    ensures lits { AreFalse trail.now.entries marks.new.entries }
    ensures marked { Marks marks.old.entries marks.new.entries keep (map lit_of codes.now) }
{
    let mut count: usize = 0;
    for code in codes {
        if mark(trail, marks, base, lit_of(*code), keep) {
            count = count.saturating_add(1);
        }
    }
    count
}

/// Marks the literals of a clause but the kept one. Tells how many of them are new and of the present level.
pub fn mark_clause(
    store: &Store,
    trail: &Trail,
    marks: &mut Trail,
    base: usize,
    number: u64,
    keep: Option<Lit>,
) -> usize
    requires there { IsSome (named (clauses_of store.now) number) }
    requires within { marks.old.vars ≡ trail.now.vars }
    requires falsified { (c : List Lit) → named (clauses_of store.now) number ≡ Some c → is_false_besides trail.now.entries keep c ≡ true }
    requires lits { AreFalse trail.now.entries marks.old.entries }
    ensures vars { marks.new.vars ≡ marks.old.vars }
    ensures lits { AreFalse trail.now.entries marks.new.entries }
    ensures marked { (c : List Lit) → named (clauses_of store.now) number ≡ Some c → Marks marks.old.entries marks.new.entries keep c }
{
    match store.held(number) {
        Held::Watched(clause) => mark_codes(trail, marks, base, store.codes(*clause), keep),
        Held::Apart(clause) => mark_lits(trail, marks, base, clause.lits(), keep),
    }
}

/// Whether none of these literals was made false before a place.
fn are_passed(trail: &Trail, place: usize, marks: &[Entry]) -> bool
    ensures { result ≡ are_passed trail.now.entries place marks.now }
{
    for mark in marks {
        if is_false_before(trail, place, mark.lit) {
            return false;
        }
    }
    true
}

/// Whether a walk back that has come to a place must go on: a marked literal was made false before it. `passed` is how many of them stand behind the place; where there are more, none is looked at.
pub fn has_more(trail: &Trail, marks: &Trail, place: usize, passed: usize) -> bool
    ensures more { result ≡ true → 0 < place }
    ensures done { result ≡ false → are_passed trail.now.entries place marks.now.entries ≡ true }
{
    if place == 0 {
        return false;
    }
    if passed < marks.len() {
        return true;
    }
    !are_passed(trail, place, marks.entries())
}

/// Behind the entry that made a literal false, where that is before a place and not before `behind`; else `behind`.
fn raised(trail: &Trail, place: usize, behind: usize, lit: Lit) -> usize
    requires place { place ≤ length trail.now.entries }
    requires behind { behind ≤ place }
    ensures up { behind ≤ result }
    ensures within { result ≤ place }
    ensures between { (is_false (value_in (take result trail.now.entries) lit) || not (is_false (value_in (take place trail.now.entries) lit))) ≡ true }
{
    let at = trail.falsified_at(lit);
    if at < behind || at >= place {
        return behind;
    }
    at + 1
}

/// Behind the last entry before a place that made one of these literals false, 0 where none did.
fn behind_marked(trail: &Trail, place: usize, marks: &[Entry]) -> usize
    requires { place ≤ length trail.now.entries }
    ensures within { result ≤ place }
    ensures between { none_between trail.now.entries result place marks.now ≡ true }
{
    let mut behind = 0;
    for mark in marks {
        behind = raised(trail, place, behind, mark.lit);
    }
    behind
}

/// Where a walk back goes on that has come to a place: there, or behind the next marked literal. That one is looked for behind as many entries without a mark as there are marks, so that neither the entries nor the marks that are looked at become many.
pub fn next_place(trail: &Trail, marks: &Trail, place: usize, unmarked: usize) -> usize
    requires { place ≤ length trail.now.entries }
    ensures within { result ≤ place }
    ensures between { none_between trail.now.entries result place marks.now.entries ≡ true }
{
    if unmarked < marks.len() {
        return place;
    }
    behind_marked(trail, place, marks.entries())
}

/// Whether a literal is in the clause of a number.
pub fn clause_has(store: &Store, number: u64, lit: Lit) -> bool
    requires there { IsSome (named (clauses_of store.now) number) }
    ensures { (c : List Lit) → named (clauses_of store.now) number ≡ Some c → result ≡ has c lit }
{
    match store.held(number) {
        Held::Watched(clause) => has_code(store.codes(*clause), lit),
        Held::Apart(clause) => has_lit(clause.lits(), lit),
    }
}

/// Whether a literal is among these, by their numbers.
fn has_code(codes: &[u64], lit: Lit) -> bool
    ensures { result ≡ has (map lit_of codes.now) lit }
{
    for code in codes {
        if is_kept(Some(lit), lit_of(*code)) {
            return true;
        }
    }
    false
}
