// Hints: the clauses from which a lemma follows, in the order of unit propagation.

ghost use Rattle.std.specs.Prelude.{◌≡◌, IfOk, nat_eq};
ghost use Rattle.indexmap.specs.IndexMap.{get};
ghost use Rattle.svr_lrat_judge.specs.Verdict as spec;
ghost use Rattle.svr_lrat_judge.specs.Left.{with_left};

use crate::known::Known;
use crate::verdict::LratReason;
use indexmap::IndexMap;
use svr_chain::{Clause, Lit, NoMemory};
use svr_lrat_file::Number;

/// What a hint's clause says where some literals are true.
#[derive(Clone, Copy)]
pub(crate) enum Hinted {
    /// It is false, so the lemma is shown.
    Shown,
    /// All of its literals but this one are false.
    Unit(Lit),
    Fault(LratReason),
}

impl Hinted {
    /// With one more literal of the clause, which is not false.
    fn with_lit(self, lit: Lit) -> Hinted
        ensures { result ≡ with_left self lit }
    {
        match self {
            Hinted::Shown => Hinted::Unit(lit),
            Hinted::Unit(first) => {
                if first == lit {
                    Hinted::Unit(first)
                } else {
                    Hinted::Fault(LratReason::TwoLeft)
                }
            }
            Hinted::Fault(reason) => Hinted::Fault(reason),
        }
    }
}

/// What is left of a clause.

fn left_of(known: &Known, lits: &[Lit]) -> Hinted
    ensures { result ≡ spec.left_of known.now lits.now }
{
    let mut left = Hinted::Shown;
    for lit in lits {
        if !known.has(lit.flipped()) {
            left = left.with_lit(*lit);
        }
    }
    left
}

fn follow(known: &Known, clauses: &IndexMap<u64, Clause>, hint: Number) -> Hinted
    ensures { result ≡ spec.hinted (get nat_eq clauses.now) known.now hint }
{
    if hint.negative {
        return Hinted::Fault(LratReason::Negative);
    }
    match clauses.get(&hint.size) {
        None => Hinted::Fault(LratReason::Hint),
        Some(clause) => left_of(known, clause.lits()),
    }
}

/// The first fault of the hints, where a lemma whose literals are false has none.
pub(crate) fn hints_fault(
    known: &mut Known,
    clauses: &IndexMap<u64, Clause>,
    hints: &[Number],
) -> Result<Option<LratReason>, NoMemory>
    ensures { IfOk result (λ f. f ≡ spec.hints_fault (get nat_eq clauses.now) known.old hints.now) }
{
    for hint in hints {
        match follow(&*known, clauses, *hint) {
            Hinted::Shown => return Ok(None),
            Hinted::Unit(lit) => known.push(lit)?,
            Hinted::Fault(reason) => return Ok(Some(reason)),
        }
    }
    Ok(Some(LratReason::Short))
}
