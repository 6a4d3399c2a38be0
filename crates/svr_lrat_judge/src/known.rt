// Literals that are true so far.

ghost use Rattle.std.specs.Prelude.{◌≡◌, ◌<◌, ◌∷◌, ◌++◌, [], ℕ, List, false, length, slice_index_or, slice_set, OnOk};
ghost use Rattle.svr_chain.specs.declared.clause.Lit.{Lit as LitType};
ghost use Rattle.svr_chain.specs.Clauses.{has};
ghost use Rattle.svr_lrat_judge.specs.Marks as spec;
ghost use Rattle.svr_lrat_judge.specs.Marks.{AreMarked, MarkedAmong};

use std::alloc::Global;
use std::marker::Model;
use svr_chain::{Lit, NoMemory};

/// Which literals of a variable are marked.
#[derive(Clone, Copy)]
pub(crate) struct Sides {
    positive: bool,
    negative: bool,
}

const UNMARKED: Sides = Sides {
    positive: false,
    negative: false,
};

impl Sides {
    fn has(self, negated: bool) -> bool
        ensures { result ≡ spec.side self negated }
    {
        if negated {
            self.negative
        } else {
            self.positive
        }
    }

    fn with_mark(self, negated: bool, mark: bool) -> Sides
        ensures { result ≡ spec.with_side self negated mark }
    {
        if negated {
            Sides {
                positive: self.positive,
                negative: mark,
            }
        } else {
            Sides {
                positive: mark,
                negative: self.negative,
            }
        }
    }
}

fn sides_at(marks: &[Sides], var: usize) -> Sides
    ensures { result ≡ slice_index_or marks.now var spec.unmarked }
{
    match marks.get(var) {
        Some(sides) => *sides,
        None => UNMARKED,
    }
}

/// Makes the marks reach up to a variable.
fn grow(marks: &mut Vec<Sides>, var: usize) -> Result<(), NoMemory>
    ensures long { OnOk result (var < length marks.new.items) }
    ensures same { (v : ℕ) → slice_index_or marks.new.items v spec.unmarked ≡ slice_index_or marks.old.items v spec.unmarked }
{
    while marks.len() <= var {
        marks.push(UNMARKED)?;
    }
    Ok(())
}

/// Marks a literal, or takes its mark away.
fn set_mark(marks: &mut Vec<Sides>, lit: Lit, mark: bool)
    requires { lit.var < length marks.old.items }
    ensures { marks.new.items ≡ slice_set marks.old.items lit.var (spec.with_side (slice_index_or marks.old.items lit.var spec.unmarked) lit.neg mark) }
{
    let var = lit.var as usize;
    let sides = sides_at(marks.as_slice(), var).with_mark(lit.neg, mark);
    marks[var] = sides;
}

fn unmark_one(marks: &mut Vec<Sides>, lit: Lit)
    ensures { (rest : List LitType) → MarkedAmong marks.old.items (lit ∷ rest) → MarkedAmong marks.new.items rest }
{
    let within = (lit.var as usize) < marks.len();
    if !within {
        return;
    }
    set_mark(marks, lit, false);
}

/// Takes all marks away.
fn unmark(marks: &mut Vec<Sides>, lits: &[Lit])
    requires { MarkedAmong marks.old.items lits.now }
    ensures { (l : LitType) → spec.is_marked marks.new.items l ≡ false }
{
    for lit in lits {
        unmark_one(marks, *lit);
    }
}

/// One more literal, and its mark.
fn add(marks: &mut Vec<Sides>, lits: &mut Vec<Lit>, lit: Lit) -> Result<(), NoMemory>
    requires { AreMarked marks.old.items lits.old.items }
    ensures marked { AreMarked marks.new.items lits.new.items }
    ensures added { OnOk result (lits.new.items ≡ lits.old.items ++ lit ∷ []) }
{
    let var = lit.var as usize;
    grow(marks, var)?;
    lits.push(lit)?;
    set_mark(marks, lit, true);
    Ok(())
}

/// A list of literals, with a test that takes constant time.
#[derive(Drop)]
pub(crate) struct Known {
    marks: Vec<Sides>,
    lits: Vec<Lit>,
}

impl Model for Known {
    ghost use Rattle.std.specs.Prelude.{List};
    ghost use Rattle.svr_chain.specs.declared.clause.Lit.{Lit};
    ghost use Rattle.svr_lrat_judge.specs.Marks.{AreMarked};

    ghost Value = { List Lit };

    ghost view = { λ k. k.lits.items };

    ghost invariant = { λ k. AreMarked k.marks.items k.lits.items };
}

impl Known {
    pub(crate) fn new(alloc: Global) -> Known
        ensures { result ≡ [] }
    {
        Known {
            marks: Vec::new(alloc),
            lits: Vec::new(alloc),
        }
    }

    pub(crate) fn has(&self, lit: Lit) -> bool
        ensures { result ≡ has self.now lit }
    {
        sides_at(self.marks.as_slice(), lit.var as usize).has(lit.neg)
    }

    pub(crate) fn push(&mut self, lit: Lit) -> Result<(), NoMemory>
        ensures { OnOk result (self.new ≡ self.old ++ lit ∷ []) }
    {
        add(&mut self.marks, &mut self.lits, lit)
    }

    pub(crate) fn clear(&mut self)
        ensures { self.new ≡ [] }
    {
        unmark(&mut self.marks, self.lits.as_slice());
        self.lits.clear();
    }
}
