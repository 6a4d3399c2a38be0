// The solver: one question after the other to one search.

ghost use Rattle.std.specs.Prelude.{◌≡◌, ◌≤◌, ◌<◌, ◌+◌, ℕ, true, false, [], None, Some, IfOk, IfSome, IfNone, length, take};
ghost use Rattle.std.specs.List.{All};
ghost use Rattle.svr_chain.specs.Clauses.{AreWithin, is_tautology};
ghost use Rattle.svr_chain.specs.Log.{are_denied};
ghost use Rattle.svr_cdcl.specs.Learned.{Derives};
ghost use Rattle.svr_chain.specs.Settled.{AreSettled};
ghost use Rattle.svr_query.specs.Answer.{AreGiven, IsAnswer, IsModel, IsRefutation, solver_of};
ghost use Rattle.svr_query.specs.Bits.{AreBits, AreFirst};
ghost use Rattle.svr_query.specs.Logged.{AreValues, AreWished, IsLogged};

use crate::limit::{Limit, search_within};
use crate::memory::NoMemory;
use crate::model::is_model;
use crate::needed::{copy_steps, refutation_by, refutation_with};
use crate::order::Order;
use crate::run::Found;
use std::alloc::Global;
use std::marker::Model;
use svr_cdcl::{Learned, Search};
use svr_chain::{Clause, Cnf, Lit, Refutation, Step};

/// The answer to a question.
#[derive(Drop)]
pub enum Answer {
    /// The values of the variables from 1 on. They meet the clauses and the assumed literals.
    Satisfied(Vec<bool>),
    /// No valuation meets the clauses and the assumed literals: the log has a goal and is accepted.
    Refuted(Refutation),
    /// The budget is spent: the log is accepted, and its steps from place `first` on were made for this question.
    Spent { log: Refutation, first: u64 },
}

/// Clauses, the steps that were derived from them, and the search over both, with the order of its decisions.
#[derive(Drop)]
pub struct Solver {
    cnf: Cnf,
    search: Search,
    steps: Vec<Step>,
    order: Order,
    /// How many of the first variables settle the others, where that is known.
    bits: Option<usize>,
}

impl Model for Solver {
    ghost use Rattle.svr_query.specs.Answer.{SolverView};

    ghost Value = { SolverView };

    ghost use Rattle.svr_query.specs.Inside.{IsSolver, solver_view};

    ghost view = { solver_view };

    ghost invariant = { IsSolver };
}

/// The values of all variables, the preferred ones where they are open.
fn values_of(alloc: Global, search: &Search, prefer: &[bool]) -> Result<Vec<bool>, NoMemory>
    requires { length prefer.now ≡ search.now.vars }
    ensures len { IfOk result (λ v. length v.items ≡ search.now.vars) }
    ensures values { IfOk result (λ v. AreValues search.now.entries v.items search.now.vars) }
    ensures open { IfOk result (λ v. AreWished search.now.entries prefer.now v.items search.now.vars) }
{
    let mut var = 0;
    let mut values = Vec::new(alloc);
    for wish in prefer {
        var += 1;
        let value = match search.value(Lit { var, neg: false }) {
            Some(value) => value,
            None => *wish,
        };
        values.push(value)?;
    }
    Ok(values)
}

/// The refutation that ends with a derived clause, whose literals are all denied.
fn conclude(
    alloc: Global,
    cnf: &[Clause],
    search: &Search,
    steps: &[Step],
    assume: &[Lit],
    explained: Learned,
) -> Result<Refutation, NoMemory>
    requires apart { is_tautology assume.now ≡ false }
    requires logged { IsLogged cnf.now steps.now search.now }
    requires derives { Derives search.now.clauses explained.step explained.lits }
    requires denied { are_denied assume.now explained.lits ≡ true }
    ensures { IfOk result (IsRefutation cnf.now assume.now) }
{
    let clauses = cnf.len() as u64;
    match search.find_part(explained.lits.lits()) {
        Some(number) => refutation_by(alloc, clauses, steps, number),
        None => {
            let next = search.next_number();
            refutation_with(alloc, clauses, steps, explained.step, next)
        }
    }
}

/// The answer of the search over these clauses, whose steps go behind those that were derived before.
fn searched(
    cnf: &[Clause],
    search: &mut Search,
    steps: &mut Vec<Step>,
    order: &mut Order,
    assume: &[Lit],
    prefer: &[bool],
    limit: Limit,
) -> Result<Answer, NoMemory>
    requires within { AreWithin search.old.vars assume.now }
    requires apart { is_tautology assume.now ≡ false }
    requires prefer { length prefer.now ≡ search.old.vars }
    requires logged { IsLogged cnf.now steps.old.items search.old }
    requires bits { AreBits limit.bits search.old.vars cnf.now }
    ensures vars { search.new.vars ≡ search.old.vars }
    ensures logged { IsLogged cnf.now steps.new.items search.new }
    ensures begins { take (length steps.old.items) steps.new.items ≡ steps.old.items }
    ensures few { length steps.new.items ≤ length steps.old.items + limit.steps }
    ensures answer { IfOk result (IsAnswer (solver_of search.old.vars cnf.now steps.old.items limit.bits) assume.now limit.steps) }
{
    let alloc = *steps.allocator();
    let first = steps.len() as u64;
    let found = search_within(cnf, search, steps, order, assume, prefer, limit)?;
    let _ = search.level();
    match found {
        Found::Satisfied => {
            let values = values_of(alloc, search, prefer)?;
            Ok(Answer::Satisfied(values))
        }
        Found::Refuted(explained) => {
            let log = conclude(alloc, cnf, search, steps.as_slice(), assume, explained)?;
            Ok(Answer::Refuted(log))
        }
        Found::Spent => {
            let copies = copy_steps(alloc, steps.as_slice())?;
            let log = Refutation {
                steps: copies,
                goal: None,
            };
            Ok(Answer::Spent { log, first })
        }
    }
}

impl Solver {
    /// A solver over the clauses of a formula, with no step derived yet.
    pub fn new(alloc: Global, cnf: Cnf) -> Result<Solver, NoMemory>
        requires { All (AreWithin cnf.vars) cnf.clauses.items }
        ensures vars { IfOk result (λ s. s.vars ≡ cnf.vars) }
        ensures clauses { IfOk result (λ s. s.clauses ≡ cnf.clauses.items) }
        ensures steps { IfOk result (λ s. s.steps ≡ []) }
        ensures bits { IfOk result (λ s. s.bits ≡ None) }
    {
        let search = Search::new(alloc, &cnf)?;
        let vars = cnf.vars;
        Ok(Solver {
            cnf,
            search,
            steps: Vec::new(alloc),
            order: Order::new(alloc, vars, 0),
            bits: None,
        })
    }

    /// A solver over the clauses of a formula all of whose variables are settled by the bits, which are the first ones. It gives no question up whose budget is at least 2 ^ (n + 1), n being the number of bits.
    pub fn with_bits(alloc: Global, cnf: Cnf, bits: Vec<Lit>) -> Result<Solver, NoMemory>
        requires clauses { All (AreWithin cnf.vars) cnf.clauses.items }
        requires within { AreWithin cnf.vars bits.items }
        requires first { AreFirst bits.items }
        requires settled { AreSettled (length bits.items) cnf.vars cnf.clauses.items }
        ensures vars { IfOk result (λ s. s.vars ≡ cnf.vars) }
        ensures clauses { IfOk result (λ s. s.clauses ≡ cnf.clauses.items) }
        ensures steps { IfOk result (λ s. s.steps ≡ []) }
        ensures bits { IfOk result (λ s. s.bits ≡ Some (length bits.items)) }
    {
        let search = Search::new(alloc, &cnf)?;
        let vars = cnf.vars;
        let count = bits.len();
        Ok(Solver {
            cnf,
            search,
            steps: Vec::new(alloc),
            order: Order::new(alloc, vars, count),
            bits: Some(count),
        })
    }

    /// The formula, given back.
    pub fn into_cnf(self) -> Cnf
        ensures vars { result.vars ≡ self.vars }
        ensures clauses { result.clauses.items ≡ self.clauses }
    {
        self.cnf
    }

    /// Whether a valuation meets the clauses and the assumed literals. The preferred values are the answer where they do. A question that took `budget` steps without an answer is given up, unless the bits are so few that it is answered by all their values.
    pub fn ask(&mut self, assume: &[Lit], prefer: &[bool], budget: u64) -> Result<Answer, NoMemory>
        requires within { AreWithin self.old.vars assume.now }
        requires apart { is_tautology assume.now ≡ false }
        requires prefer { length prefer.now ≡ self.old.vars }
        requires budget { 1 ≤ budget }
        ensures vars { self.new.vars ≡ self.old.vars }
        ensures clauses { self.new.clauses ≡ self.old.clauses }
        ensures bits { self.new.bits ≡ self.old.bits }
        ensures begins { take (length self.old.steps) self.new.steps ≡ self.old.steps }
        ensures few { length self.new.steps ≤ length self.old.steps + budget }
        ensures answer { IfOk result (IsAnswer self.old assume.now budget) }
        ensures preferred { IsModel self.old.clauses assume.now prefer.now → IfOk result (AreGiven prefer.now) }
    {
        if is_model(self.cnf.clauses.as_slice(), assume, prefer) {
            let alloc = *self.steps.allocator();
            let values = Vec::from_slice(alloc, prefer)?;
            return Ok(Answer::Satisfied(values));
        }
        self.find_answer(assume, prefer, budget)
    }

    /// The answer of the search.
    fn find_answer(
        &mut self,
        assume: &[Lit],
        prefer: &[bool],
        budget: u64,
    ) -> Result<Answer, NoMemory>
        requires within { AreWithin self.old.vars assume.now }
        requires apart { is_tautology assume.now ≡ false }
        requires prefer { length prefer.now ≡ self.old.vars }
        ensures vars { self.new.vars ≡ self.old.vars }
        ensures clauses { self.new.clauses ≡ self.old.clauses }
        ensures bits { self.new.bits ≡ self.old.bits }
        ensures begins { take (length self.old.steps) self.new.steps ≡ self.old.steps }
        ensures few { length self.new.steps ≤ length self.old.steps + budget }
        ensures answer { IfOk result (IsAnswer self.old assume.now budget) }
    {
        let limit = Limit {
            steps: budget,
            bits: self.bits,
        };
        let cnf = self.cnf.clauses.as_slice();
        searched(
            cnf,
            &mut self.search,
            &mut self.steps,
            &mut self.order,
            assume,
            prefer,
            limit,
        )
    }
}
