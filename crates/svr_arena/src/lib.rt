//! Clauses and their watch lists in one vector of words.
//!
//! What crates above cite: the words of `specs/Arena.antt` and `names`, `watched` and the changes of
//! lists in `specs/Layout.antt`. The words themselves stand in no public clause.
#![tactic(auto)]

ghost use Rattle.std.specs.Prelude.{◌≡◌, ◌+◌, ◌*◌, ◌<◌, ◌≤◌, ℕ, true, false, [], ◌∷◌, ◌++◌, length, slice_index, vec_len, vec_capacity, IfOk, OnOk, IfSome};
ghost use Rattle.std.specs.List.{swap};
ghost use Rattle.svr_arena.specs.Layout.{names, watched, slot, side_in, linked, unlinked, exchanged, moved, cell_of, IsBefore, without, is_in, lits_in, first, after, with_front};
ghost use Rattle.svr_arena.specs.Arena.{AreLits, IsArena, body, lit_at, next_name, side_of};

use std::alloc::{AllocError, Global};
use std::marker::Model;

const MOST: u64 = 1 << 40;

/// First a head per literal; then each clause with its length, two next words and its literals.
#[derive(Drop)]
pub struct Arena {
    words: Vec<u64>,
    codes: u64,
}

impl Model for Arena {
    ghost use Rattle.svr_arena.specs.Layout.{Layout};

    ghost Value = { Layout };

    ghost use Rattle.svr_arena.specs.Fields.{layout, IsArenaFields};

    ghost view = { layout };

    ghost invariant = { IsArenaFields };
}

/// The literals of a clause.
fn lits_over(words: &[u64], clause: usize) -> &[u64]
    requires { clause + 3 + slice_index words.now clause ≤ length words.now }
    ensures { result.now ≡ lits_in words.now clause }
{
    let len = words[clause] as usize;
    &words[clause + 3..clause + 3 + len]
}

/// The word that holds the next clause of the list of `lit` after a clause.
fn slot_of(words: &[u64], clause: usize, lit: u64) -> usize
    requires { clause + 5 ≤ length words.now }
    ensures { result ≡ slot words.now clause lit }
{
    if words[clause + 3] == lit {
        clause + 1
    } else {
        clause + 2
    }
}

/// Puts a clause in front of the list of its first or second literal.
fn link(words: &mut [u64], clause: usize, side: usize)
    requires side { side < 2 }
    requires inside { clause + 5 ≤ length words.old }
    requires head { slice_index words.old (clause + 3 + side) < length words.old }
    ensures { words.new ≡ linked words.old clause side }
{
    let head = words[clause + 3 + side] as usize;
    words[clause + 1 + side] = words[head];
    words[head] = clause as u64;
}

/// Puts a clause in front of both its lists.
fn link_both(words: &mut [u64], clause: usize)
    requires inside { clause + 5 ≤ length words.old }
    requires first { slice_index words.old (clause + 3) < clause }
    requires second { slice_index words.old (clause + 4) < clause }
    ensures { words.new ≡ linked (linked words.old clause 0) clause 1 }
{
    link(words, clause, 0);
    link(words, clause, 1);
}

/// Which of the first two literals this is.
fn side_of(words: &[u64], clause: usize, lit: u64) -> usize
    requires { clause + 5 ≤ length words.now }
    ensures { result ≡ side_in words.now clause lit }
{
    if words[clause + 3] == lit { 0 } else { 1 }
}

/// Takes a clause off the list of `lit`.
fn unlink(words: &mut [u64], before: Option<u64>, clause: usize, lit: u64)
    requires inside { clause + 5 ≤ length words.old }
    requires before { IfSome before (λ b. b + 5 ≤ length words.old) }
    requires cell { cell_of words.old lit before < length words.old }
    ensures { words.new ≡ unlinked words.old lit before clause }
{
    let cell = match before {
        None => lit as usize,
        Some(clause) => slot_of(words, clause as usize, lit),
    };
    let own = slot_of(words, clause, lit);
    words[cell] = words[own];
}

/// Takes a clause off the lists of two literals.
fn unlink_both(
    words: &mut [u64],
    first: Option<u64>,
    second: Option<u64>,
    clause: usize,
    lits: (u64, u64),
)
    requires inside { clause + 5 ≤ length words.old }
    requires first { IfSome first (λ b. b + 5 ≤ length words.old) }
    requires second { IfSome second (λ b. b + 5 ≤ length words.old) }
    requires cell { cell_of words.old lits.0 first < length words.old }
    requires other { cell_of (unlinked words.old lits.0 first clause) lits.1 second < length words.old }
    ensures { words.new ≡ unlinked (unlinked words.old lits.0 first clause) lits.1 second clause }
{
    unlink(words, first, clause, lits.0);
    unlink(words, second, clause, lits.1);
}

/// Exchanges two literals of a clause.
fn exchange(words: &mut [u64], clause: usize, j: usize, k: usize)
    requires first { clause + 3 + j < length words.old }
    requires second { clause + 3 + k < length words.old }
    ensures { words.new ≡ exchanged words.old clause j k }
{
    let lit = words[clause + 3 + j];
    words[clause + 3 + j] = words[clause + 3 + k];
    words[clause + 3 + k] = lit;
}

fn move_over(
    words: &mut [u64],
    before: Option<u64>,
    clause: usize,
    lit: u64,
    side: usize,
    to: usize,
)
    requires side { side < 2 }
    requires inside { clause + 5 ≤ length words.old }
    requires to { clause + 3 + to < length words.old }
    requires before { IfSome before (λ b. b + 5 ≤ length words.old) }
    requires cell { cell_of words.old lit before < length words.old }
    requires head { slice_index (exchanged (unlinked words.old lit before clause) clause side to) (clause + 3 + side) < length words.old }
    ensures { words.new ≡ moved words.old before clause lit side to }
{
    unlink(words, before, clause, lit);
    exchange(words, clause, side, to);
    link(words, clause, side);
}

/// Writes a clause on no list behind the words.
fn append(words: &mut Vec<u64>, lits: &[u64])
    requires { vec_len words.old + 3 + length lits.now ≤ vec_capacity words.old }
    ensures items { words.new.items ≡ words.old.items ++ length lits.now ∷ 0 ∷ 0 ∷ lits.now }
    ensures capacity { vec_capacity words.new ≡ vec_capacity words.old }
{
    words.push_reserved(lits.len() as u64);
    words.push_reserved(0);
    words.push_reserved(0);
    for lit in lits {
        words.push_reserved(*lit);
    }
}

impl Arena {
    /// Heads for the literals of so many variables, and no clause.
    pub fn new(alloc: Global, vars: u64) -> Result<Arena, AllocError>
        ensures codes { IfOk result (λ a. a.codes ≡ 2 * vars) }
        ensures names { IfOk result (λ a. names a ≡ []) }
    {
        if vars > MOST {
            return Err(AllocError);
        }
        let codes = 2 * vars;
        let words = vec![in alloc; 0; codes as usize]?;
        Ok(Arena { words, codes })
    }

    /// The number of literals.
    pub fn codes(&self) -> u64
        ensures codes { result ≡ self.now.codes }
        ensures known { IsArena self.now }
    {
        self.codes
    }

    /// Room for so many words more.
    pub fn reserve(&mut self, words: usize) -> Result<(), AllocError>
        ensures same { self.new ≡ record self.old { spare = self.new.spare } }
        ensures spare { OnOk result (words ≤ self.new.spare) }
    {
        self.words.reserve(words)
    }

    /// The name of the next clause.
    pub fn next_name(&self) -> u64
        ensures { result ≡ next_name self.now }
    {
        self.words.len() as u64
    }

    /// A new clause on no list.
    pub fn add(&mut self, lits: &[u64]) -> u64
        requires lits { AreLits self.old.codes lits.now }
        requires room { length lits.now + 3 ≤ self.old.spare }
        ensures codes { self.new.codes ≡ self.old.codes }
        ensures spare { self.new.spare + (length lits.now + 3) ≡ self.old.spare }
        ensures next { result ≡ next_name self.old }
        ensures names { names self.new ≡ names self.old ++ result ∷ [] }
        ensures fresh { (d : ℕ) → is_in d (names self.old) ≡ true → d < result }
        ensures lits { body self.new result ≡ lits.now }
        ensures others { (d : ℕ) → is_in d (names self.old) ≡ true → body self.new d ≡ body self.old d }
        ensures lists { (k : ℕ) → k < self.old.codes → watched self.new k ≡ watched self.old k }
        ensures detached { (k : ℕ) → k < self.old.codes → is_in result (watched self.new k) ≡ false }
    {
        let name = self.words.len() as u64;
        append(&mut self.words, lits);
        name
    }

    /// The first clause that watches a literal.
    pub fn first_watch(&self, lit: u64) -> Option<u64>
        requires { lit < self.now.codes }
        ensures { result ≡ first (watched self.now lit) }
    {
        let clause = self.words[lit as usize];
        if clause == 0 { None } else { Some(clause) }
    }

    /// The clause after this one among those that watch a literal.
    pub fn next_watch(&self, clause: u64, lit: u64) -> Option<u64>
        requires lit { lit < self.now.codes }
        requires on { is_in clause (watched self.now lit) ≡ true }
        ensures { result ≡ after (watched self.now lit) clause }
    {
        let at = slot_of(&self.words, clause as usize, lit);
        let next = self.words[at];
        if next == 0 { None } else { Some(next) }
    }

    /// The literals of a clause.
    pub fn lits(&self, clause: u64) -> &[u64]
        requires { is_in clause (names self.now) ≡ true }
        ensures { result.now ≡ body self.now clause }
    {
        lits_over(&self.words, clause as usize)
    }

    /// The first two literals of a clause.
    fn first_two(&self, clause: u64) -> (u64, u64)
        requires { is_in clause (names self.now) ≡ true }
        ensures first { result.0 ≡ lit_at self.now clause 0 }
        ensures second { result.1 ≡ lit_at self.now clause 1 }
        ensures known { IsArena self.now }
    {
        // For the proof: what is known of every arena.
        let _ = self.codes();
        let lits = self.lits(clause);
        (lits[0], lits[1])
    }

    /// Puts a clause on its two lists.
    pub fn attach(&mut self, clause: u64)
        requires name { is_in clause (names self.old) ≡ true }
        requires detached { is_in clause (watched self.old (lit_at self.old clause 0)) ≡ false }
        ensures codes { self.new.codes ≡ self.old.codes }
        ensures spare { self.new.spare ≡ self.old.spare }
        ensures names { names self.new ≡ names self.old }
        ensures lits { (d : ℕ) → is_in d (names self.old) ≡ true → body self.new d ≡ body self.old d }
        ensures lists { (k : ℕ) → k < self.old.codes → watched self.new k
            ≡ with_front (lit_at self.old clause 1) clause (with_front (lit_at self.old clause 0) clause (watched self.old)) k }
    {
        link_both(&mut self.words, clause as usize);
    }

    /// The clause before this one among those that watch a literal.
    pub fn watch_before(&self, clause: u64, lit: u64) -> Option<u64>
        requires lit { lit < self.now.codes }
        requires on { is_in clause (watched self.now lit) ≡ true }
        ensures { IsBefore (watched self.now lit) result clause }
    {
        // For the proof: what is known of every arena.
        let _ = self.codes();
        let mut before = None;
        let mut at = self.first_watch(lit);
        'list: while let Some(other) = at {
            if other == clause {
                return before;
            }
            before = at;
            at = self.next_watch(other, lit);
        }
        unreachable!()
    }

    /// Takes a clause off its two lists.
    pub fn detach(&mut self, clause: u64)
        requires name { is_in clause (names self.old) ≡ true }
        requires attached { is_in clause (watched self.old (lit_at self.old clause 0)) ≡ true }
        ensures codes { self.new.codes ≡ self.old.codes }
        ensures spare { self.new.spare ≡ self.old.spare }
        ensures names { names self.new ≡ names self.old }
        ensures lits { (d : ℕ) → is_in d (names self.old) ≡ true → body self.new d ≡ body self.old d }
        ensures lists { (k : ℕ) → k < self.old.codes → watched self.new k
            ≡ without (lit_at self.old clause 1) clause (without (lit_at self.old clause 0) clause (watched self.old)) k }
    {
        let at = clause as usize;
        let lits = self.first_two(clause);
        let first = self.watch_before(clause, lits.0);
        let second = self.watch_before(clause, lits.1);
        unlink_both(&mut self.words, first, second, at, lits);
    }

    /// Exchanges a watched literal for that at place `to`, and moves the clause to its list.
    pub fn move_watch(&mut self, before: Option<u64>, clause: u64, lit: u64, to: usize)
        requires lit { lit < self.old.codes }
        requires before { IsBefore (watched self.old lit) before clause }
        requires low { 2 ≤ to }
        requires high { to < length (body self.old clause) }
        ensures codes { self.new.codes ≡ self.old.codes }
        ensures spare { self.new.spare ≡ self.old.spare }
        ensures names { names self.new ≡ names self.old }
        ensures others { (d : ℕ) → is_in d (names self.old) ≡ true → (d ≡ clause → ⊥) → body self.new d ≡ body self.old d }
        ensures own { body self.new clause ≡ swap (body self.old clause) (side_of self.old clause lit) to }
        ensures lists { (k : ℕ) → k < self.old.codes → watched self.new k
            ≡ with_front (lit_at self.old clause to) clause (without lit clause (watched self.old)) k }
    {
        let at = clause as usize;
        let side = side_of(&self.words, at, lit);
        move_over(&mut self.words, before, at, lit, side, to);
    }
}
