// Files judged line by line.

ghost use Rattle.std.specs.Prelude.{◌≡◌, [], IfOk, OnOk, nat_eq, is_some};
ghost use Rattle.indexmap.specs.IndexMap.{get};
ghost use Rattle.svr_chain.specs.Valuations.{HaveNoValuation};
ghost use Rattle.svr_lrat_judge.specs.declared.verdict.LratVerdict.TheVariants as says;
ghost use Rattle.svr_lrat_judge.specs.States.{state_at};
ghost use Rattle.svr_lrat_judge.specs.Verdict as spec;

use crate::known::Known;
use crate::lemma::lemma_fault;
use crate::verdict::{LratReason, LratVerdict};
use indexmap::IndexMap;
use std::alloc::Global;
use svr_chain::{Clause, Lit, NoMemory};
use svr_lrat_file::{Line, LratFile, Number};

/// A line at fault.
#[derive(Clone, Copy, PartialEq, Eq)]
pub(crate) struct Fault {
    id: u64,
    reason: LratReason,
}

/// The state of a derivation: the live clauses by their identifiers, the last identifier of a clause or a lemma, whether one of these was empty, and the first line at fault.
#[derive(Drop)]
struct Derivation {
    known: Known,
    clauses: IndexMap<u64, Clause>,
    last: u64,
    has_empty: bool,
    fault: Option<Fault>,
}

/// Takes away the clause of the identifier. Tells whether it was live.
fn remove(clauses: &mut IndexMap<u64, Clause>, id: u64) -> bool
    ensures rest { get nat_eq clauses.new ≡ spec.without (get nat_eq clauses.old) id }
    ensures live { result ≡ is_some (get nat_eq clauses.old id) }
{
    clauses.swap_remove(&id).is_some()
}

/// Takes away the clauses of these identifiers in turn. Tells whether each was live.
fn remove_all(clauses: &mut IndexMap<u64, Clause>, ids: &[Number]) -> bool
    ensures live { get nat_eq clauses.new ≡ spec.deleted (get nat_eq clauses.old) ids.now }
    ensures each { result ≡ spec.are_live (get nat_eq clauses.old) ids.now }
{
    let mut live = true;
    for id in ids {
        let was_live = remove(clauses, id.size);
        live = live && was_live;
    }
    live
}

fn insert(clauses: &mut IndexMap<u64, Clause>, id: u64, clause: Clause) -> Result<(), NoMemory>
    ensures { OnOk result (get nat_eq clauses.new ≡ spec.with_clause (get nat_eq clauses.old) id clause) }
{
    clauses.insert(id, clause)?;
    Ok(())
}

fn has_no_literal(lits: &[Lit]) -> bool
    ensures { result ≡ spec.is_nil lits.now }
{
    match lits.split_first() {
        None => true,
        Some(_) => false,
    }
}

impl Derivation {
    fn new(alloc: Global) -> Derivation
        ensures { state_at result ≡ spec.start }
    {
        let known = Known::new(alloc);
        let clauses = IndexMap::new(alloc);
        Derivation {
            known,
            clauses,
            last: 0,
            has_empty: false,
            fault: None,
        }
    }

    /// One more clause of the formula.
    fn input(&mut self, clause: Clause) -> Result<(), NoMemory>
        ensures { OnOk result (state_at self.new ≡ spec.with_input (state_at self.old) clause) }
    {
        // More clauses than 64 bits can number have no room.
        let Some(id) = self.last.checked_add(1) else {
            return Err(NoMemory);
        };
        self.take(id, clause)
    }

    /// One more clause.
    fn take(&mut self, id: u64, clause: Clause) -> Result<(), NoMemory>
        ensures { OnOk result (state_at self.new ≡ spec.with_new (state_at self.old) id clause) }
    {
        let is_empty = has_no_literal(clause.lits());
        insert(&mut self.clauses, id, clause)?;
        self.last = id;
        self.has_empty = self.has_empty || is_empty;
        Ok(())
    }

    fn lemma(&mut self, id: u64, clause: Clause, hints: &[Number]) -> Result<(), NoMemory>
        ensures { OnOk result (state_at self.new ≡ spec.with_lemma (state_at self.old) id clause (spec.lemma_fault (get nat_eq self.old.clauses) self.old.last id clause hints.now)) }
    {
        match lemma_fault(
            &mut self.known,
            &self.clauses,
            self.last,
            id,
            clause.lits(),
            hints,
        )? {
            None => self.take(id, clause),
            Some(reason) => {
                self.fault = Some(Fault { id, reason });
                Ok(())
            }
        }
    }

    fn delete(&mut self, id: u64, ids: &[Number])
        ensures { state_at self.new ≡ spec.with_deleted (state_at self.old) id ids.now }
    {
        if remove_all(&mut self.clauses, ids) {
            return;
        }
        self.fault = Some(Fault {
            id,
            reason: LratReason::Delete,
        });
    }

    fn take_line(&mut self, line: Line) -> Result<(), NoMemory>
        ensures { OnOk result (state_at self.new ≡ spec.with_line (state_at self.old) line) }
    {
        match line {
            Line::Lemma { id, lits, hints } => self.lemma(id, lits, hints.as_slice()),
            Line::Delete { id, ids } => {
                self.delete(id, ids.as_slice());
                Ok(())
            }
        }
    }

    /// The next line, which is looked at unless an earlier one is at fault.
    fn line(&mut self, line: Line) -> Result<(), NoMemory>
        ensures { OnOk result (state_at self.new ≡ spec.after_line (state_at self.old) line) }
    {
        if self.fault.is_some() {
            return Ok(());
        }
        self.take_line(line)
    }

    fn verdict(&self) -> LratVerdict
        ensures { result ≡ spec.verdict_at self.now.fault self.now.has_empty }
    {
        match self.fault {
            Some(fault) => LratVerdict::Rejected {
                id: fault.id,
                reason: fault.reason,
            },
            None => {
                if self.has_empty {
                    LratVerdict::Accepted
                } else {
                    LratVerdict::Rejected {
                        id: 0,
                        reason: LratReason::Unfinished,
                    }
                }
            }
        }
    }
}

/// The verdict on a file, line by line up to the first at fault.
///
/// A lemma follows by reverse unit propagation: its literals are taken for false, and the clause of each hint in turn has at most one literal that is not false. That one becomes true; where there is none, the lemma is shown. An accepted file means that no valuation meets its clauses.
#[tactic(auto, using(crate::proofs::Sound::sound_verdict))]
pub fn judge(alloc: Global, file: LratFile) -> Result<LratVerdict, NoMemory>
    ensures verdict { IfOk result (λ v. v ≡ spec.verdict_of file) }
    ensures sound { IfOk result (λ v. v ≡ says.Accepted → HaveNoValuation file.clauses []) }
{
    let LratFile {
        vars: _,
        clauses,
        lines,
    } = file;
    let mut derivation = Derivation::new(alloc);
    for clause in clauses {
        derivation.input(clause)?;
    }
    for line in lines {
        derivation.line(line)?;
    }
    Ok(derivation.verdict())
}
