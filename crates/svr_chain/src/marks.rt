// A clause as it is derived: its literals, each of which is found by its variable.

ghost use Rattle.std.specs.Prelude.{◌≡◌, ◌<◌, ◌/◌, ◌∷◌, ◌++◌, ◌&&◌, ◌||◌, [], List, false, length, not, IfNone, IfOk, IfSome, OnOk, nat_lt, slice_index_or};
ghost use Rattle.std.specs.List.{position, slice_get};
ghost use Rattle.svr_chain.specs.declared.clause.Lit.{Lit};
ghost use Rattle.svr_chain.specs.Clauses.{has, is_tautology, is_within, resolvent, same_lit};
ghost use Rattle.svr_chain.specs.Log.{are_denied};
ghost use Rattle.svr_chain.specs.Marks.{AreMarked, IsNoted, IsSwapped, is_same, noted};
ghost use Rattle.svr_chain.specs.Same.{SameLits};

use crate::clause::Lit;
use crate::lists::list_number;
use crate::memory::NoMemory;
use std::alloc::Global;
use std::marker::Model;

/// Literals, each of them once, with a table that tells where each stands. What the table says of a literal is looked up among the literals, so nothing has to be taken out of it where they are let go.
#[derive(Drop)]
pub struct Marks {
    lits: Vec<Lit>,
    places: Vec<usize>,
}

impl Model for Marks {
    ghost use Rattle.std.specs.Prelude.{List};
    ghost use Rattle.svr_chain.specs.declared.clause.Lit.{Lit};
    ghost use Rattle.svr_chain.specs.Marks.{AreMarked};

    ghost Value = { List Lit };

    ghost view = { λ m. m.lits.items };

    ghost invariant = { λ m. AreMarked m.places.items m.lits.items };
}

/// Whether a table of this length has a place for the literal: up to its middle for each variable, and as many for their negations.
fn has_place(count: usize, lit: Lit) -> bool
    ensures { result ≡ nat_lt lit.var (count / 2) }
{
    lit.var < (count / 2) as u64
}

/// Where the table says that the literal stands, `None` where it has no place for it.
fn noted(places: &[usize], lit: Lit) -> Option<usize>
    ensures { result ≡ noted places.now lit }
{
    let count = places.len();
    if has_place(count, lit) {
        Some(places[list_number(count, lit)])
    } else {
        None
    }
}

/// Tells the table where the literal stands.
fn note(places: &mut Vec<usize>, lit: Lit, place: usize)
    ensures { IsNoted places.old.items places.new.items lit place }
{
    let count = places.len();
    if !has_place(count, lit) {
        return;
    }
    places[list_number(count, lit)] = place;
}

/// Whether the literal stands at the place.
fn stands_at(lits: &[Lit], place: usize, lit: Lit) -> bool
    ensures { result ≡ is_same lit (slice_get lits.now place) }
{
    match lits.get(place) {
        Some(held) => *held == lit,
        None => false,
    }
}

/// The first place of the literal.
fn find(lits: &[Lit], lit: Lit) -> Option<usize>
    ensures { result ≡ position (λ x. same_lit x lit) lits.now }
{
    lits.iter().position(|x| *x == lit)
}

/// Where the literal stands. All literals are looked at for one that has no place in the table.
fn place_of(lits: &[Lit], places: &[usize], lit: Lit) -> Option<usize>
    requires { AreMarked places.now lits.now }
    ensures some { IfSome result (λ i. (i < length lits.now) × (slice_index_or lits.now i lit ≡ lit)) }
    ensures none { IfNone result (has lits.now lit ≡ false) }
{
    let Some(place) = noted(places, lit) else {
        return find(lits, lit);
    };
    if stands_at(lits, place, lit) {
        Some(place)
    } else {
        None
    }
}

/// One more literal, and its place.
fn put(lits: &mut Vec<Lit>, places: &mut Vec<usize>, lit: Lit) -> Result<(), NoMemory>
    requires marked { AreMarked places.old.items lits.old.items }
    requires new { has lits.old.items lit ≡ false }
    ensures marked { AreMarked places.new.items lits.new.items }
    ensures put { OnOk result (lits.new.items ≡ lits.old.items ++ lit ∷ []) }
{
    let place = lits.len();
    lits.push(lit)?;
    note(places, lit, place);
    Ok(())
}

/// Takes the literal out that stands at the place. The last one stands there then.
fn swap_out(lits: &mut Vec<Lit>, place: usize)
    requires { place < length lits.old.items }
    ensures { IsSwapped lits.old.items lits.new.items place }
{
    lits.swap_remove(place);
}

/// Takes the literal out that stands at the place.
fn take_out(lits: &mut Vec<Lit>, places: &mut Vec<usize>, place: usize)
    requires marked { AreMarked places.old.items lits.old.items }
    requires within { place < length lits.old.items }
    ensures marked { AreMarked places.new.items lits.new.items }
    ensures left { (l x : Lit) → slice_index_or lits.old.items place l ≡ l
        → has lits.new.items x ≡ (has lits.old.items x && not (same_lit x l)) }
{
    swap_out(lits, place);
    let is_last = place >= lits.len();
    if is_last {
        return;
    }
    note(places, lits[place], place);
}

impl Marks {
    /// No literal is held. The table has a place for the variables up to `vars`.
    pub fn new(alloc: Global, vars: u64) -> Result<Marks, NoMemory>
        ensures { IfOk result (λ m. m ≡ []) }
    {
        let count = (vars as usize).saturating_add(1).saturating_mul(2);
        let places = vec![in alloc; 0; count]?;
        Ok(Marks {
            lits: Vec::new(alloc),
            places,
        })
    }

    /// The literals that are held.
    pub fn lits(&self) -> &[Lit]
        ensures { result.now ≡ self.now }
    {
        self.lits.as_slice()
    }

    /// Whether the literal is held.
    pub fn has(&self, lit: Lit) -> bool
        ensures { result ≡ has self.now lit }
    {
        place_of(self.lits.as_slice(), self.places.as_slice(), lit).is_some()
    }

    /// Whether each of these literals is held.
    pub fn has_all(&self, lits: &[Lit]) -> bool
        ensures { result ≡ is_within lits.now self.now }
    {
        lits.iter().all(|x| self.has(*x))
    }

    /// Whether the negation of each of these literals is held.
    pub fn deny(&self, lits: &[Lit]) -> bool
        ensures { result ≡ are_denied self.now lits.now }
    {
        lits.iter().all(|x| self.has(x.flipped()))
    }

    /// Whether a literal is held together with its negation.
    pub fn have_opposites(&self) -> bool
        ensures { result ≡ is_tautology self.now }
    {
        self.lits().iter().any(|x| self.has(x.flipped()))
    }

    /// Holds one more literal, if it is not held already.
    fn add(&mut self, lit: Lit) -> Result<(), NoMemory>
        ensures { OnOk result ((x : Lit) → has self.new x ≡ (has self.old x || same_lit lit x)) }
    {
        if self.has(lit) {
            return Ok(());
        }
        put(&mut self.lits, &mut self.places, lit)
    }

    /// Lets the literal go, if it is held.
    fn remove(&mut self, lit: Lit)
        ensures { (x : Lit) → has self.new x ≡ (has self.old x && not (same_lit x lit)) }
    {
        let Some(place) = place_of(self.lits.as_slice(), self.places.as_slice(), lit) else {
            return;
        };
        take_out(&mut self.lits, &mut self.places, place);
    }

    /// Holds these literals alone.
    pub fn begin(&mut self, lits: &[Lit]) -> Result<(), NoMemory>
        ensures { OnOk result (SameLits self.new lits.now) }
    {
        self.lits.clear();
        for lit in lits {
            self.add(*lit)?;
        }
        Ok(())
    }

    /// Resolves the clause that is held with another one, which has the negation of the pivot.
    pub fn resolve(&mut self, pivot: Lit, there: &[Lit]) -> Result<(), NoMemory>
        ensures { OnOk result (SameLits self.new (resolvent self.old pivot there.now)) }
    {
        self.remove(pivot);
        let other = pivot.flipped();
        for lit in there {
            if *lit != other {
                self.add(*lit)?;
            }
        }
        Ok(())
    }
}
