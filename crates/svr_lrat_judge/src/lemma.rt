// Lemmas.

ghost use Rattle.std.specs.Prelude.{◌≡◌, [], map, true, false, nat_eq, IfOk};
ghost use Rattle.indexmap.specs.IndexMap.{get};
ghost use Rattle.svr_chain.specs.Clauses.{flip, is_tautology};
ghost use Rattle.svr_lrat_judge.specs.Verdict as spec;

use crate::hints::hints_fault;
use crate::known::Known;
use crate::verdict::LratReason;
use indexmap::IndexMap;
use svr_chain::{Clause, Lit, NoMemory};
use svr_lrat_file::Number;

/// Takes the literals of a lemma for false. Tells whether one of them stands there together with its negation.
fn deny(known: &mut Known, lits: &[Lit]) -> Result<bool, NoMemory>
    requires { known.old ≡ [] }
    ensures opposites { IfOk result (λ r. r ≡ is_tautology lits.now) }
    ensures denied { IfOk result (λ r. r ≡ false → known.new ≡ map flip lits.now) }
{
    for lit in lits {
        if known.has(*lit) {
            return Ok(true);
        }
        known.push(lit.flipped())?;
    }
    Ok(false)
}

/// The first fault of a lemma behind its identifier.
fn literals_fault(
    known: &mut Known,
    clauses: &IndexMap<u64, Clause>,
    lits: &[Lit],
    hints: &[Number],
) -> Result<Option<LratReason>, NoMemory>
    requires { known.old ≡ [] }
    ensures { IfOk result (λ f. f ≡ spec.literals_fault (get nat_eq clauses.now) lits.now hints.now) }
{
    if deny(known, lits)? {
        Ok(None)
    } else {
        hints_fault(known, clauses, hints)
    }
}

/// The first fault of a lemma.
pub(crate) fn lemma_fault(
    known: &mut Known,
    clauses: &IndexMap<u64, Clause>,
    last: u64,
    id: u64,
    lits: &[Lit],
    hints: &[Number],
) -> Result<Option<LratReason>, NoMemory>
    ensures { IfOk result (λ f. f ≡ spec.lemma_fault (get nat_eq clauses.now) last id lits.now hints.now) }
{
    if id <= last {
        return Ok(Some(LratReason::Order));
    }
    known.clear();
    literals_fault(known, clauses, lits, hints)
}
