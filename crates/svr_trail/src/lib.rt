//! The literals that a search has set, in their order.
//!
//! What crates above cite: the words of `specs/Trail.antt`, and the lemma files `proofs/Trails.antt`
//! (what a trail says), `proofs/Grown.antt` (trails that grow by forced entries) and
//! `proofs/Quiet.antt` (clauses with which unit propagation has nothing to do).
#![tactic(auto)]

ghost use Rattle.std.specs.Prelude.{◌≡◌, ℕ, ◌+◌, ◌<◌, ◌≤◌, ◌∷◌, ◌++◌, [], None, IfOk, length, nat_lt, slice_index_or, take};
ghost use Rattle.svr_chain.specs.Clauses.{IsWithin};
ghost use Rattle.svr_trail.specs.Trail.{Each, WasOpen, is_false, reason_in, sign_at, value_in};

use std::alloc::{AllocError, Global};
use std::marker::Model;
use svr_chain::Lit;

/// A literal that was set, with the number of the clause that set it, or `None` where it was decided.
#[derive(Clone, Copy)]
pub struct Entry {
    pub lit: Lit,
    pub reason: Option<u64>,
}

/// The literals set so far, in their order, with tables of their signs and places by variable.
#[derive(Drop)]
pub struct Trail {
    entries: Vec<Entry>,
    signs: Vec<Option<bool>>,
    places: Vec<usize>,
}

impl Model for Trail {
    ghost use Rattle.svr_trail.specs.Trail.{TrailView};

    ghost Value = { TrailView };

    ghost use Rattle.svr_trail.specs.Table.{IsTrail, view_of};

    ghost view = { view_of };

    ghost invariant = { IsTrail };
}

impl Trail {
    /// No literal is set. Room for each variable is taken here.
    pub fn new(alloc: Global, vars: usize) -> Result<Trail, AllocError>
        ensures { IfOk result (λ t. t ≡ record { vars = vars; entries = [] }) }
    {
        let entries = Vec::with_capacity(alloc, vars)?;
        let signs = vec![in alloc; None; vars]?;
        let places = vec![in alloc; 0; vars]?;
        Ok(Trail {
            entries,
            signs,
            places,
        })
    }

    /// How many variables are open.
    pub fn open_vars(&self) -> usize
        ensures { result + length self.now.entries ≡ self.now.vars }
    {
        self.signs.len() - self.entries.len()
    }

    /// The entries in their order.
    pub fn entries(&self) -> &[Entry]
        ensures entries { result.now ≡ self.now.entries }
        ensures apart { Each WasOpen self.now.entries }
        ensures within { Each (λ _ e. IsWithin self.now.vars e.lit) self.now.entries }
    {
        self.entries.as_slice()
    }

    /// The entry at a place.
    pub fn entry(&self, place: usize) -> Entry
        requires { place < length self.now.entries }
        ensures { result ≡ slice_index_or self.now.entries place result }
    {
        self.entries[place]
    }

    /// The number of entries.
    pub fn len(&self) -> usize
        ensures len { result ≡ length self.now.entries }
        ensures bound { length self.now.entries ≤ self.now.vars }
        ensures apart { Each WasOpen self.now.entries }
        ensures within { Each (λ _ e. IsWithin self.now.vars e.lit) self.now.entries }
    {
        self.entries.len()
    }

    /// Whether the variable was set negated, `None` where it is open.
    fn sign(&self, var: u64) -> Option<bool>
        ensures { result ≡ sign_at self.now.entries var }
    {
        let signs = self.signs.as_slice();
        if var == 0 {
            return None;
        }
        *signs.get((var - 1) as usize)?
    }

    /// The value of a literal, `None` where it is open.
    pub fn value(&self, lit: Lit) -> Option<bool>
        ensures { result ≡ value_in self.now.entries lit }
    {
        let sign = self.sign(lit.var)?;
        Some(sign == lit.neg)
    }

    /// The value of a literal by the entries before a place.
    pub fn value_before(&self, lit: Lit, place: usize) -> Option<bool>
        ensures { result ≡ value_in (take place self.now.entries) lit }
    {
        let places = &self.places;
        let value = self.value(lit)?;
        if places[(lit.var - 1) as usize] < place {
            Some(value)
        } else {
            None
        }
    }

    /// The place of the entry that made a literal false, and the number of all entries where it is not false.
    pub fn falsified_at(&self, lit: Lit) -> usize
        ensures { (h : ℕ) → h ≤ length self.now.entries
            → is_false (value_in (take h self.now.entries) lit) ≡ nat_lt result h }
    {
        let places = &self.places;
        let Some(value) = self.value(lit) else {
            return self.entries.len();
        };
        if value {
            self.entries.len()
        } else {
            places[(lit.var - 1) as usize]
        }
    }

    /// The number of the clause that set a literal, `None` where the literal was decided or is not true.
    pub fn reason(&self, lit: Lit) -> Option<u64>
        ensures { result ≡ reason_in self.now.entries lit }
    {
        let places = &self.places;
        let Some(value) = self.value(lit) else {
            return None;
        };
        if value {
            self.entries[places[(lit.var - 1) as usize]].reason
        } else {
            None
        }
    }

    /// Sets a literal.
    pub fn put(&mut self, entry: Entry)
        requires within { IsWithin self.old.vars entry.lit }
        requires open { value_in self.old.entries entry.lit ≡ None }
        ensures put { self.new ≡ record { vars = self.old.vars; entries = self.old.entries ++ entry ∷ [] } }
        ensures bound { length self.new.entries ≤ self.new.vars }
    {
        let at = (entry.lit.var - 1) as usize;
        self.signs[at] = Some(entry.lit.neg);
        self.places[at] = self.entries.len();
        self.entries.push_reserved(entry);
    }

    /// Keeps the first entries alone.
    pub fn undo(&mut self, keep: usize)
        requires { keep ≤ length self.old.entries }
        ensures { self.new ≡ record { vars = self.old.vars; entries = take keep self.old.entries } }
    {
        'undo: while self.entries.len() > keep {
            if let Some(entry) = self.entries.pop() {
                self.signs[(entry.lit.var - 1) as usize] = None;
            }
        }
    }
}
