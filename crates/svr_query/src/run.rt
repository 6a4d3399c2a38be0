// The loop of the search: propagate, decide, learn.

ghost use Rattle.std.specs.Prelude.{◌≡◌, ◌+◌, ◌≤◌, ◌<◌, ◌⊎◌, ◌∷◌, ◌++◌, ℕ, true, false, [], IfOk, IfSome, IfNone, IsSome, None, Some, List, length, take};
ghost use Rattle.svr_chain.specs.declared.clause.Lit.{Lit};
ghost use Rattle.svr_chain.specs.Clauses.{AreWithin, IsWithin, has, is_tautology};
ghost use Rattle.svr_trail.specs.Trail.{Each, IsClosed, sign_at, value_in};
ghost use Rattle.svr_cdcl.specs.Search.{at_level};
ghost use Rattle.svr_query.specs.Found.{AreSeen, IsAssumed, IsFound};
ghost use Rattle.svr_query.specs.Logged.{IsAsked, IsLogged, are_true};

use crate::learn::learn_from;
use crate::memory::NoMemory;
use crate::order::Order;
use crate::propagate::propagate;
use crate::restarts::Restarts;
use svr_cdcl::{Learned, Search};
use svr_chain::{Clause, Lit, Step};

/// What the assumed literals ask for next: a decision, the end since one of them is false, or nothing more.
#[derive(Clone, Copy)]
pub enum Assumed {
    Decide(Lit),
    Denied(Lit),
    Done,
}

/// What the search found. A refutation ends with a derived clause whose literals are all denied.
#[derive(Drop)]
pub enum Found {
    Satisfied,
    Refuted(Learned),
    Spent,
}

/// The first `lits` assumed literals are true by the first `entries` entries of the trail.
#[derive(Clone, Copy)]
pub struct Seen {
    pub lits: usize,
    pub entries: usize,
}

/// What is still known of the assumed literals where so many entries are kept.
fn still_seen(seen: Seen, kept: usize) -> Seen
    ensures within { result.entries ≤ kept }
    ensures same { (result ≡ seen) ⊎ (result.lits ≡ 0) }
{
    if seen.entries > kept {
        return Seen {
            lits: 0,
            entries: 0,
        };
    }
    seen
}

/// Goes on behind the first `seen` assumed literals, which are true, to the first one that is not.
fn go_on(search: &Search, assume: &[Lit], seen: &mut usize) -> Assumed
    requires { are_true search.now.entries (take seen.old assume.now) ≡ true }
    ensures seen { are_true search.now.entries (take seen.new assume.now) ≡ true }
    ensures next { IsAssumed search.now.entries assume.now result }
{
    'assumed: while *seen < assume.len() {
        let lit = assume[*seen];
        match search.value(lit) {
            None => return Assumed::Decide(lit),
            Some(false) => return Assumed::Denied(lit),
            Some(true) => {}
        }
        *seen += 1;
    }
    Assumed::Done
}

/// Whether so many assumed literals are all of them.
fn are_all(assume: &[Lit], lits: usize) -> bool
    ensures { result ≡ true → length assume.now ≤ lits }
{
    lits >= assume.len()
}

/// The first assumed literal that is not true. Those that are known to be are not looked at again, and where all are, what they are true by stays the same.
fn next_unseen(search: &Search, assume: &[Lit], seen: &mut Seen) -> Assumed
    requires { AreSeen search.now.entries assume.now seen.old }
    ensures seen { AreSeen search.now.entries assume.now seen.new }
    ensures next { IsAssumed search.now.entries assume.now result }
{
    if are_all(assume, seen.lits) {
        return Assumed::Done;
    }
    seen.entries = search.entries().len();
    go_on(search, assume, &mut seen.lits)
}

/// The first assumed literal that is not true.
pub fn next_assumed(search: &Search, assume: &[Lit]) -> Assumed
    ensures { IsAssumed search.now.entries assume.now result }
{
    let mut seen = 0;
    go_on(search, assume, &mut seen)
}

/// The open variable with the lowest number, with its preferred sign, if one of those with preferences is open.
pub fn first_open(search: &Search, prefer: &[bool]) -> Option<Lit>
    ensures open { IfSome result (λ l. value_in search.now.entries l ≡ None) }
    ensures within { IfSome result (IsWithin (length prefer.now)) }
    ensures lower { IfSome result (λ l. (v : ℕ) → v + 1 < l.var → IsSome (sign_at search.now.entries (v + 1))) }
    ensures none { IfNone result ((v : ℕ) → v < length prefer.now → IsSome (sign_at search.now.entries (v + 1))) }
{
    let mut var = 0;
    for wish in prefer {
        var += 1;
        let lit = Lit { var, neg: !*wish };
        if search.value(lit).is_none() {
            return Some(lit);
        }
    }
    None
}

/// The next decision, `None` where every variable is set. The order is not asked where it has none that is open.
fn next_open(search: &Search, prefer: &[bool], order: &mut Order) -> Option<Lit>
    requires { length prefer.now ≡ search.now.vars }
    ensures open { IfSome result (λ l. value_in search.now.entries l ≡ None) }
    ensures within { IfSome result (IsWithin search.now.vars) }
    ensures none { IfNone result ((v : ℕ) → v < search.now.vars → IsSome (sign_at search.now.entries (v + 1))) }
{
    if search.entries().len() < prefer.len() {
        if let Some(lit) = order.next(search, prefer) {
            return Some(lit);
        }
    }
    first_open(search, prefer)
}

/// Takes back all decisions.
pub fn restart(search: &mut Search)
    ensures vars { search.new.vars ≡ search.old.vars }
    ensures clauses { search.new.clauses ≡ search.old.clauses }
    ensures ends { search.new.ends ≡ [] }
    ensures shorter { length search.new.entries ≤ length search.old.entries }
    ensures begins { take (length search.new.entries) search.old.entries ≡ search.new.entries }
{
    let _ = search.level();
    search.backjump(0);
}

/// The place behind the first such literal from a place on, if it is among those.
fn place_behind(assume: &[Lit], from: usize, lit: Lit) -> Option<usize>
    ensures { IfSome result (λ _. has assume.now lit ≡ true) }
{
    let mut place = from;
    'places: while place < assume.len() {
        let asked = assume[place];
        place += 1;
        if asked == lit {
            return Some(place);
        }
    }
    None
}

/// How many of the first levels were begun with assumed literals, in the order of these.
fn asked_levels(search: &Search, assume: &[Lit]) -> usize
    ensures within { result ≤ length search.now.ends }
    ensures asked { Each (IsAsked assume.now) (at_level search.now result) }
{
    // For the proof: what is known of every search.
    let _ = search.level();
    let entries = search.entries();
    let mut levels = 0;
    let mut behind = 0;
    for end in search.ends() {
        let decided = entries[*end].lit;
        let Some(place) = place_behind(assume, behind, decided) else {
            return levels;
        };
        behind = place;
        levels += 1;
    }
    levels
}

/// Takes back all levels but the first so many.
fn keep_levels(search: &mut Search, levels: usize)
    requires { levels ≤ length search.old.ends }
    ensures vars { search.new.vars ≡ search.old.vars }
    ensures clauses { search.new.clauses ≡ search.old.clauses }
    ensures level { search.new.entries ≡ at_level search.old levels }
    ensures shorter { length search.new.entries ≤ length search.old.entries }
    ensures begins { take (length search.new.entries) search.old.entries ≡ search.new.entries }
{
    let _ = search.level();
    search.backjump(levels);
}

/// Takes back the decisions from the first one on that was not assumed, and puts them back into the order. What two questions assume in front stays set from one to the next.
fn keep_asked(search: &mut Search, assume: &[Lit], order: &mut Order)
    ensures vars { search.new.vars ≡ search.old.vars }
    ensures clauses { search.new.clauses ≡ search.old.clauses }
    ensures asked { Each (IsAsked assume.now) search.new.entries }
{
    let levels = asked_levels(search, assume);
    let others = search.level().saturating_sub(levels);
    order.put_back(search.entries(), others);
    keep_levels(search, levels);
}

/// The same within a question. Of the first `kept` entries those that are taken back go back into the order.
fn restart_asked(search: &mut Search, assume: &[Lit], order: &mut Order, kept: usize)
    ensures vars { search.new.vars ≡ search.old.vars }
    ensures clauses { search.new.clauses ≡ search.old.clauses }
    ensures asked { Each (IsAsked assume.now) search.new.entries }
    ensures shorter { length search.new.entries ≤ length search.old.entries }
    ensures begins { take (length search.new.entries) search.old.entries ≡ search.new.entries }
{
    let asked = asked_levels(search, assume);
    let others = search.level().saturating_sub(asked);
    order.put_first_back(search.entries(), kept, others);
    keep_levels(search, asked);
}

/// Begins a level with this literal true.
pub fn decide(search: &mut Search, lit: Lit)
    requires within { IsWithin search.old.vars lit }
    requires open { value_in search.old.entries lit ≡ None }
    requires closed { IsClosed search.old.entries search.old.clauses }
    ensures decided { search.new ≡ record search.old {
      entries = search.old.entries ++ record { lit = lit; reason = None } ∷ [];
      ends = search.old.ends ++ length search.old.entries ∷ [];
    } }
    ensures bound { length search.new.entries ≤ search.new.vars }
{
    search.decide(lit);
    let _ = search.level();
}

/// The refutation that an assumed literal gives which is false.
pub fn refuted_by(search: &mut Search, assume: &[Lit], lit: Lit) -> Result<Found, NoMemory>
    requires apart { is_tautology assume.now ≡ false }
    requires assumed { has assume.now lit ≡ true }
    requires denied { value_in search.old.entries lit ≡ Some false }
    requires asked { Each (IsAsked assume.now) search.old.entries }
    ensures same { search.new ≡ search.old }
    ensures found { IfOk result (IsFound search.new assume.now) }
    ensures answers { IfOk result (λ r. r ≡ Found.Spent → ⊥) }
{
    let denied = lit.flipped();
    let Some(number) = search.reason(denied) else {
        unreachable!()
    };
    let explained = search.explain(number, Some(denied))?;
    Ok(Found::Refuted(explained))
}

/// Decides, propagates and learns until there is an answer, or just `budget` steps were made.
pub fn run(
    cnf: &[Clause],
    search: &mut Search,
    steps: &mut Vec<Step>,
    order: &mut Order,
    assume: &[Lit],
    prefer: &[bool],
    budget: u64,
) -> Result<Found, NoMemory>
    requires within { AreWithin search.old.vars assume.now }
    requires apart { is_tautology assume.now ≡ false }
    requires prefer { length prefer.now ≡ search.old.vars }
    requires logged { IsLogged cnf.now steps.old.items search.old }
    ensures vars { search.new.vars ≡ search.old.vars }
    ensures logged { IsLogged cnf.now steps.new.items search.new }
    ensures begins { take (length steps.old.items) steps.new.items ≡ steps.old.items }
    ensures few { length steps.new.items ≤ length steps.old.items + budget }
    ensures found { IfOk result (IsFound search.new assume.now) }
    ensures spent { IfOk result (λ r. r ≡ Found.Spent
        → length steps.old.items + budget ≤ length steps.new.items) }
{
    let mut restarts = Restarts::new();
    let mut seen = Seen {
        lits: 0,
        entries: 0,
    };
    keep_asked(search, assume, order);
    order.begin();
    let _ = search.level();
    let mut made = 0;
    'search: while made < budget {
        match propagate(search) {
            Some(number) => {
                if search.level() == 0 {
                    let explained = search.explain(number, None)?;
                    return Ok(Found::Refuted(explained));
                }
                let kept = learn_from(cnf, search, steps, order, number)?;
                seen = still_seen(seen, kept);
                made += 1;
                if restarts.is_due() {
                    restart_asked(search, assume, order, kept);
                    seen = still_seen(seen, search.entries().len());
                }
            }
            None => match next_unseen(search, assume, &mut seen) {
                Assumed::Decide(lit) => decide(search, lit),
                Assumed::Denied(lit) => return refuted_by(search, assume, lit),
                Assumed::Done => match next_open(search, prefer, order) {
                    None => return Ok(Found::Satisfied),
                    Some(lit) => decide(search, lit),
                },
            },
        }
    }
    Ok(Found::Spent)
}
