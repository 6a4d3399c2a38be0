// The clauses of a search.

ghost use Rattle.std.specs.Prelude.{◌≡◌, ◌⊎◌, ◌+◌, ◌*◌, ◌/◌, ◌<◌, ◌≤◌, ◌^◌, ℕ, true, false, List, [], ◌∷◌, ◌++◌, length, slice_index, IfOk, OnOk, OnErr, IfSome, IfNone, IsSome, Some};
ghost use Rattle.std.specs.List.{slice_get, swap};
ghost use Rattle.svr_chain.specs.declared.clause.Lit.{Lit};
ghost use Rattle.svr_watch.specs.declared.store.Held.TheVariants.{Apart, Watched};
ghost use Rattle.svr_arena.specs.Layout.{Layout, names, watched, is_in, IsBefore, first, after, with_front, without};
ghost use Rattle.svr_arena.specs.Arena.{AreLits, body, lit_at, side_of};
ghost use Rattle.svr_chain.specs.Clauses.{AreWithin, IsWithin};
ghost use Rattle.svr_chain.specs.Log.{is_repeated, named};
ghost use Rattle.svr_chain.specs.Same.{SameClauses};
ghost use Rattle.svr_watch.specs.Codes.{code_of, lit_of};
ghost use Rattle.svr_watch.specs.Store.{IsAdded, IsApart, IsRoomier, IsStore, IsWithinOne, clauses_of, held_lits, lits_of, watching, KeepsStore};

use crate::codes::{code_of, watched_codes};
use crate::find::{apart_part, watched_part};
use std::alloc::{AllocError, Global};
use std::marker::Model;
use svr_arena::Arena;
use svr_chain::{Clause, Lit};

/// Zeros behind the numbers until there is one at a place.
fn grow(numbers: &mut Vec<u64>, place: usize) -> Result<(), AllocError>
    ensures kept { (i : ℕ) → i < length numbers.old.items → i < length numbers.new.items }
    ensures same { (i : ℕ) → i < length numbers.old.items → slice_index numbers.new.items i ≡ slice_index numbers.old.items i }
    ensures place { OnOk result (place < length numbers.new.items) }
{
    'places: while numbers.len() <= place {
        numbers.push(0)?;
    }
    Ok(())
}

/// Where a clause is: in the arena under a name, or apart since it is a tautology or has fewer than two distinct literals.
#[derive(Drop)]
pub enum Held {
    Watched(u64),
    Apart(Clause),
}

/// The clauses of a search by number. Those with two or more distinct literals that are no tautologies are in the arena, on the lists of their first two literals.
#[derive(Drop)]
pub struct Store {
    arena: Arena,
    held: Vec<Held>,
    /// The numbers of the clauses in the arena by their names.
    numbers: Vec<u64>,
    /// The places of the clauses apart from the arena.
    apart: Vec<usize>,
}

impl Model for Store {
    ghost use Rattle.svr_watch.specs.Store.{StoreView};

    ghost Value = { StoreView };

    ghost use Rattle.svr_watch.specs.StoreFields.{store_view, IsStoreFields};

    ghost view = { store_view };

    ghost invariant = { IsStoreFields };
}

impl Store {
    /// No clauses, over so many variables.
    pub fn new(alloc: Global, vars: u64) -> Result<Store, AllocError>
        ensures codes { IfOk result (λ s. s.arena.codes ≡ 2 * vars) }
        ensures none { IfOk result (λ s. s.held ≡ []) }
    {
        let arena = Arena::new(alloc, vars)?;
        let _ = arena.codes();
        Ok(Store {
            arena,
            held: Vec::new(alloc),
            numbers: Vec::new(alloc),
            apart: Vec::new(alloc),
        })
    }

    /// A clause joins those in the arena with the next number. It is watched at its first two literals. The answer is its name.
    pub fn add(&mut self, codes: &[u64]) -> Result<u64, AllocError>
        requires { AreLits self.old.arena.codes codes.now }
        ensures added { IfOk result (λ c. IsAdded self.old self.new c codes.now) }
        ensures err { OnErr result (IsRoomier self.old self.new) }
    {
        let number = self.held.len() as u64 + 1;
        let name = self.arena.next_name() as usize;
        self.held.reserve(1)?;
        grow(&mut self.numbers, name)?;
        self.arena.reserve(codes.len() + 3)?;
        let clause = self.arena.add(codes);
        self.arena.attach(clause);
        let _ = self.arena.codes();
        self.numbers[name] = number;
        self.held.push_reserved(Held::Watched(clause));
        Ok(clause)
    }

    /// A clause joins those apart from the arena with the next number.
    pub fn add_apart(&mut self, clause: Clause) -> Result<(), AllocError>
        requires { IsApart clause }
        ensures added { OnOk result (self.new ≡ record self.old { held = self.old.held ++ Apart clause ∷ [] }) }
        ensures err { OnErr result (self.new ≡ self.old) }
    {
        let place = self.held.len();
        self.held.reserve(1)?;
        self.apart.reserve(1)?;
        self.held.push_reserved(Held::Apart(clause));
        self.apart.push_reserved(place);
        Ok(())
    }

    /// A clause joins the others with the next number. Where no memory is left it may not have.
    pub fn push(&mut self, alloc: Global, lits: &[Lit]) -> Result<(), AllocError>
        requires { AreWithin (self.old.arena.codes / 2) lits.now }
        ensures codes { self.new.arena.codes ≡ self.old.arena.codes }
        ensures clauses { OnOk result (SameClauses (clauses_of self.new) (clauses_of self.old ++ lits.now ∷ [])) }
    {
        let _ = self.vars();
        match watched_codes(alloc, lits)? {
            None => {
                let copy = Clause::new(Vec::from_slice(alloc, lits)?);
                self.add_apart(copy)
            }
            Some(codes) => {
                self.add(codes.as_slice())?;
                Ok(())
            }
        }
    }

    /// The number of variables.
    pub fn vars(&self) -> u64
        ensures vars { 2 * result ≡ self.now.arena.codes }
        ensures small { self.now.arena.codes < 2 ^ 64 }
        ensures kept { IsStore self.now }
    {
        self.arena.codes() / 2
    }

    /// The arena.
    pub fn arena(&self) -> &Arena
        ensures { result.now ≡ self.now.arena }
    {
        &self.arena
    }

    /// Where the clause of a number is.
    pub fn held(&self, number: u64) -> &Held
        requires { IsSome (named (clauses_of self.now) number) }
        ensures clause { named (clauses_of self.now) number ≡ Some (held_lits self.now.arena result.now) }
        ensures named { (c : ℕ) → result.now ≡ Watched c → is_in c (names self.now.arena) ≡ true }
    {
        let _ = self.vars();
        &self.held[(number - 1) as usize]
    }

    /// The number of a clause that is a part of this one.
    pub fn find_part(&self, lits: &[Lit]) -> Option<u64>
        ensures some { IfSome result (IsWithinOne (clauses_of self.now) lits.now) }
        ensures none { IfNone result (is_repeated (clauses_of self.now) lits.now ≡ false) }
    {
        match watched_part(&self.arena, lits) {
            Some(clause) => Some(self.number(clause)),
            None => apart_part(self.held.as_slice(), self.apart.as_slice(), lits),
        }
    }

    /// How many clauses there are.
    pub fn len(&self) -> usize
        ensures { result ≡ length self.now.held }
    {
        self.held.len()
    }

    /// The number of the next clause.
    pub fn next_number(&self) -> u64
        ensures { result ≡ length self.now.held + 1 }
    {
        self.held.len() as u64 + 1
    }

    /// The clause of a place, where it is apart from the arena.
    pub fn apart(&self, place: usize) -> Option<&Clause>
        requires { place < length self.now.held }
        ensures some { IfSome result (λ k. slice_get self.now.held place ≡ Some (Apart k.now)) }
        ensures none { IfNone result ((k : List Lit) → slice_get self.now.held place ≡ Some (Apart k) → ⊥) }
    {
        match &self.held[place] {
            Held::Watched(_) => None,
            Held::Apart(clause) => Some(clause),
        }
    }

    /// The first clause that watches a literal.
    pub fn first_watch(&self, lit: Lit) -> Option<u64>
        requires { code_of lit < self.now.arena.codes }
        ensures { result ≡ first (watching self.now lit) }
    {
        let _ = self.arena.codes();
        let code = code_of(lit);
        self.arena.first_watch(code)
    }

    /// The clause after this one among those that watch a literal.
    pub fn next_watch(&self, clause: u64, lit: Lit) -> Option<u64>
        requires within { code_of lit < self.now.arena.codes }
        requires on { is_in clause (watching self.now lit) ≡ true }
        ensures { result ≡ after (watching self.now lit) clause }
    {
        let _ = self.arena.codes();
        let code = code_of(lit);
        self.arena.next_watch(clause, code)
    }

    /// The literals of a clause of the arena, as numbers.
    pub fn codes(&self, clause: u64) -> &[u64]
        requires { is_in clause (names self.now.arena) ≡ true }
        ensures { result.now ≡ body self.now.arena clause }
    {
        self.arena.lits(clause)
    }

    /// The number of a clause of the arena.
    pub fn number(&self, clause: u64) -> u64
        requires { is_in clause (names self.now.arena) ≡ true }
        ensures { named (clauses_of self.now) result ≡ Some (lits_of self.now.arena clause) }
    {
        self.numbers[clause as usize]
    }

    /// Exchanges a watched literal for that at place `to`, and moves the clause to its list.
    pub fn move_watch(&mut self, before: Option<u64>, clause: u64, lit: Lit, to: usize)
        requires within { code_of lit < self.old.arena.codes }
        requires before { IsBefore (watching self.old lit) before clause }
        requires low { 2 ≤ to }
        requires high { to < length (body self.old.arena clause) }
        ensures kept { KeepsStore self.old self.new }
        ensures others { (d : ℕ) → is_in d (names self.old.arena) ≡ true → (d ≡ clause → ⊥) → body self.new.arena d ≡ body self.old.arena d }
        ensures own { body self.new.arena clause ≡ swap (body self.old.arena clause) (side_of self.old.arena clause (code_of lit)) to }
        ensures lists { (k : ℕ) → k < self.old.arena.codes → watched self.new.arena k
            ≡ with_front (lit_at self.old.arena clause to) clause (without (code_of lit) clause (watched self.old.arena)) k }
    {
        let _ = self.arena.codes();
        let code = code_of(lit);
        self.arena.move_watch(before, clause, code, to);
        let _ = self.arena.codes();
    }
}
