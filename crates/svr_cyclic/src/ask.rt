// One question: whether some literals fit behind those of the hard items and of the chosen values.

ghost use Rattle.std.specs.Prelude.{◌≡◌, ◌≤◌, ◌++◌, false, drop, IfOk, OnOk};
ghost use Rattle.std.specs.Rc.{rc_slice_items};
ghost use Rattle.svr_chain.specs.Clauses.{AreWithin, is_tautology};
ghost use Rattle.svr_phase.specs.Proof.{fixed_lits, spelling};
ghost use Rattle.svr_query.specs.Answer.{IsAnswer};
ghost use Rattle.svr_cyclic.specs.Questions.{CanAsk, front_of};

use crate::memory::NoMemory;
use crate::row::spelled;
use std::alloc::Global;
use std::rc::RcSlice;
use svr_chain::{Lit, Refutation};
use svr_encoded::Encoded;
use svr_frame::Frame;
use svr_phase::{Assumed, Proof};
use svr_query::{Answer, Solver};

/// What all questions of the phase are asked with: the frame, an encoding apart from its clauses, which the solver has, its roots once more for the proofs, which share them, the values that the search tries first, and the budget in steps.
#[derive(Clone, Copy)]
pub(crate) struct Asking<'a> {
    pub frame: &'a Frame,
    pub layout: &'a Encoded,
    pub roots: &'a RcSlice<Lit>,
    pub prefer: &'a [bool],
    pub budget: u64,
}

/// The solver, the literals in front of each question, and the values of the assignment that was found last. In front are those of the hard items, then those of the chosen values: they stay decided from one question to the next, since what changes stands behind them.
#[derive(Drop)]
pub(crate) struct Asker {
    pub solver: Solver,
    pub front: Vec<Lit>,
    pub met: Vec<bool>,
}

/// What is looked for: a value of a property behind the chosen ones, and the bits of the property.
#[derive(Clone, Copy)]
pub(crate) struct Sought<'a> {
    pub prop: u32,
    pub chosen: &'a [(u32, u64)],
    pub row: &'a [Lit],
}

/// What a question for a value came to.
#[derive(Drop)]
pub(crate) enum Tried {
    /// Some assignment has it.
    Fits,
    /// None has it.
    Refused(Proof),
    /// The budget is spent; the steps from place `first` on were made for this question.
    Spent { log: Refutation, first: u64 },
}

/// Puts the literals of a chosen value behind those in front.
pub(crate) fn put_in_front(
    alloc: Global,
    front: &mut Vec<Lit>,
    row: &[Lit],
    value: u64,
) -> Result<(), NoMemory>
    ensures { OnOk result (front.new.items ≡ front.old.items ++ spelling row.now value) }
{
    let literals = spelled(alloc, row, value)?;
    front.extend_from_slice(literals.as_slice())?;
    Ok(())
}

/// Asks whether some assignment has the literals in front and these behind them, which are cut off again.
pub(crate) fn ask_with(
    asking: &Asking<'_>,
    asker: &mut Asker,
    own: &[Lit],
    budget: u64,
) -> Result<Answer, NoMemory>
    requires can { CanAsk asking.now asker.old.solver }
    requires within { AreWithin asker.old.solver.vars (asker.old.front.items ++ own.now) }
    requires apart { is_tautology (asker.old.front.items ++ own.now) ≡ false }
    requires budget { 1 ≤ budget }
    ensures can { CanAsk asking.now asker.new.solver }
    ensures same { asker.new.solver.clauses ≡ asker.old.solver.clauses }
    ensures front { OnOk result (asker.new.front.items ≡ asker.old.front.items) }
    ensures answer { IfOk result (IsAnswer asker.old.solver (asker.old.front.items ++ own.now) budget) }
{
    let stands = asker.front.len();
    asker.front.extend_from_slice(own)?;
    let lits = asker.front.as_slice();
    let answer = asker.solver.ask(lits, asking.prefer, budget)?;
    asker.front.truncate(stands);
    Ok(answer)
}

/// What stands behind so many literals.
fn behind(lits: &[Lit], count: usize) -> &[Lit]
    ensures { result.now ≡ drop count lits.now }
{
    if count < lits.len() {
        &lits[count..]
    } else {
        &[]
    }
}

/// The literals of the chosen values, once for all proofs of a property. `front` are those in front of each question.
pub(crate) fn chosen_once(
    alloc: Global,
    layout: &Encoded,
    sought: &Sought<'_>,
    front: &[Lit],
) -> Result<RcSlice<Lit>, NoMemory>
    requires { front.now ≡ front_of layout.now sought.now.chosen.now }
    ensures { IfOk result (λ ls. rc_slice_items ls ≡ fixed_lits layout.now sought.now.chosen.now) }
{
    let roots = layout.roots.as_slice();
    let chosen = behind(front, roots.len());
    let once = RcSlice::from_slice(alloc, chosen)?;
    Ok(once)
}

/// What a proof assumes: the literals of the chosen values, of the value that is refused, and of the hard items.
pub(crate) fn assumed(
    alloc: Global,
    asking: &Asking<'_>,
    sought: &Sought<'_>,
    chosen: &RcSlice<Lit>,
    own: &[Lit],
) -> Result<Assumed, NoMemory>
    requires roots { rc_slice_items asking.now.roots.now ≡ asking.now.layout.now.roots.items }
    requires chosen { rc_slice_items chosen.now ≡ fixed_lits asking.now.layout.now sought.now.chosen.now }
    ensures { IfOk result (λ ls. ls ≡ fixed_lits asking.now.layout.now sought.now.chosen.now ++ own.now ++ asking.now.layout.now.roots.items) }
{
    let own = Vec::from_slice(alloc, own)?;
    let assume = Assumed::between(chosen, own, asking.roots)?;
    Ok(assume)
}
