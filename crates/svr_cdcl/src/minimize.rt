// The literals of a learned clause that are needless: the reason of their negation brings back marked literals alone (N. Sörensson and A. Biere, 2009).

ghost use Rattle.std.specs.Prelude.{◌≡◌, [], ◌∷◌, ◌||◌, ℕ, true, IfOk, IfSome, IsSome, List, Some, map};
ghost use Rattle.svr_chain.specs.declared.clause.Lit.{Lit};
ghost use Rattle.svr_chain.specs.Clauses.{has, same_lit};
ghost use Rattle.svr_chain.specs.Log.{named};
ghost use Rattle.svr_cdcl.specs.Learned.{Derives};
ghost use Rattle.svr_cdcl.specs.Marks.{are_below, are_marked, is_marked};
ghost use Rattle.svr_cdcl.specs.Walk.{Walk};
ghost use Rattle.svr_trail.specs.Trail.{Each, HasReason};
ghost use Rattle.svr_watch.specs.Codes.{lit_of};
ghost use Rattle.svr_watch.specs.Store.{clauses_of};

use crate::marks::{has_more, is_kept, is_marked, next_place};
use crate::memory::NoMemory;
use std::alloc::Global;
use svr_chain::{Clause, Link, Lit};
use svr_trail::{Entry, Trail};
use svr_watch::{Held, Store, lit_of};

/// Whether a literal is the kept one, or its variable is marked.
fn is_seen(marks: &Trail, keep: Lit, lit: Lit) -> bool
    ensures { result ≡ (same_lit lit keep || is_marked marks.now.entries lit.var) }
{
    is_kept(Some(keep), lit) || is_marked(marks, lit)
}

/// Whether the variables of these literals but the kept one are marked.
fn are_lits_marked(marks: &Trail, lits: &[Lit], keep: Lit) -> bool
    ensures { result ≡ are_marked marks.now.entries (Some keep) lits.now }
{
    for lit in lits {
        if !is_seen(marks, keep, *lit) {
            return false;
        }
    }
    true
}

/// Whether the variables of these literals but the kept one are marked, by their numbers.
fn are_codes_marked(marks: &Trail, codes: &[u64], keep: Lit) -> bool
    ensures { result ≡ are_marked marks.now.entries (Some keep) (map lit_of codes.now) }
{
    for code in codes {
        if !is_seen(marks, keep, lit_of(*code)) {
            return false;
        }
    }
    true
}

/// Whether the variables of the literals of a clause but the kept one are marked.
fn is_clause_marked(store: &Store, marks: &Trail, number: u64, keep: Lit) -> bool
    requires there { IsSome (named (clauses_of store.now) number) }
    ensures { (c : List Lit) → named (clauses_of store.now) number ≡ Some c → result ≡ are_marked marks.now.entries (Some keep) c }
{
    match store.held(number) {
        Held::Watched(clause) => are_codes_marked(marks, store.codes(*clause), keep),
        Held::Apart(clause) => are_lits_marked(marks, clause.lits(), keep),
    }
}

/// The reason of an entry, where all its other literals are marked.
fn needless(store: &Store, marks: &Trail, entry: Entry) -> Option<u64>
    requires { (n : ℕ) → entry.reason ≡ Some n → IsSome (named (clauses_of store.now) n) }
    ensures reason { IfSome result (λ n. entry.reason ≡ Some n) }
    ensures marked { IfSome result (λ n. (c : List Lit) → named (clauses_of store.now) n ≡ Some c
        → are_marked marks.now.entries (Some entry.lit) c ≡ true) }
{
    match entry.reason {
        None => None,
        Some(number) => {
            if is_clause_marked(store, marks, number, entry.lit) {
                Some(number)
            } else {
                None
            }
        }
    }
}

/// The derived clause of the pivot and the marked literals that are false before a place, without needless ones. The links that resolve those are put behind the others.
pub fn minimized(
    alloc: Global,
    store: &Store,
    trail: &Trail,
    marks: &Trail,
    place: usize,
    number: u64,
    links: &mut Vec<Link>,
    pivot: Lit,
) -> Result<Clause, NoMemory>
    requires reasons { Each (HasReason (clauses_of store.now)) trail.now.entries }
    requires walk { Walk (clauses_of store.now) trail.now.entries number marks.now.entries (pivot ∷ []) links.old.items place }
    ensures derives { IfOk result (λ c. Derives (clauses_of store.now) (record { start = number; links = links.new.items }) c) }
    ensures pivot { IfOk result (λ c. has c pivot ≡ true) }
    ensures others { IfOk result (λ c. are_below trail.now.entries place pivot marks.now.entries c ≡ true) }
{
    // For the proof: what is known of every trail.
    let _ = trail.len();
    let mut lits = Vec::new(alloc);
    lits.push(pivot)?;
    let mut passed = links.len().saturating_add(1);
    let mut unmarked: usize = 0;
    let mut left = place;
    'walk: while has_more(trail, marks, left, passed) {
        left -= 1;
        let entry = trail.entry(left);
        let lit = entry.lit.flipped();
        if !is_marked(marks, lit) {
            unmarked = unmarked.saturating_add(1);
            left = next_place(trail, marks, left, unmarked);
            continue;
        }
        unmarked = 0;
        passed = passed.saturating_add(1);
        let Some(clause) = needless(store, marks, entry) else {
            lits.push(lit)?;
            continue;
        };
        links.push(Link { pivot: lit, clause })?;
    }
    Ok(Clause::new(lits))
}
