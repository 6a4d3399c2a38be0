// How much a question may cost, and what is kept of it for a sweep.

ghost use Rattle.std.specs.Prelude.{◌≡◌, ◌+◌, ◌≤◌, false, IfOk, length, take};
ghost use Rattle.svr_chain.specs.Clauses.{AreWithin, is_tautology};
ghost use Rattle.svr_query.specs.Bits.{AreBits, AreMany};
ghost use Rattle.svr_query.specs.Found.{IsFound};
ghost use Rattle.svr_query.specs.Logged.{IsLogged};

use crate::memory::NoMemory;
use crate::order::Order;
use crate::run::{Found, run};
use crate::sweep::{kept_steps, sweep};
use svr_cdcl::Search;
use svr_chain::{Clause, Lit, Step};

/// The steps that a question may take, and how many of the first variables settle the others, where that is known.
#[derive(Clone, Copy)]
pub struct Limit {
    pub steps: u64,
    pub bits: Option<usize>,
}

/// Searches up to an answer, or until the steps were made. Where a sweep over the bits fits into them, the last ones are kept for it, and there is an answer.
pub fn search_within(
    cnf: &[Clause],
    search: &mut Search,
    steps: &mut Vec<Step>,
    order: &mut Order,
    assume: &[Lit],
    prefer: &[bool],
    limit: Limit,
) -> Result<Found, NoMemory>
    requires within { AreWithin search.old.vars assume.now }
    requires apart { is_tautology assume.now ≡ false }
    requires prefer { length prefer.now ≡ search.old.vars }
    requires logged { IsLogged cnf.now steps.old.items search.old }
    requires bits { AreBits limit.bits search.old.vars cnf.now }
    ensures vars { search.new.vars ≡ search.old.vars }
    ensures logged { IsLogged cnf.now steps.new.items search.new }
    ensures begins { take (length steps.old.items) steps.new.items ≡ steps.old.items }
    ensures few { length steps.new.items ≤ length steps.old.items + limit.steps }
    ensures found { IfOk result (IsFound search.new assume.now) }
    ensures spent { IfOk result (λ r. r ≡ Found.Spent
        → length steps.old.items + limit.steps ≤ length steps.new.items) }
    ensures many { IfOk result (λ r. r ≡ Found.Spent → AreMany limit.bits limit.steps) }
{
    let Some(bits) = limit.bits else {
        return run(cnf, search, steps, order, assume, prefer, limit.steps);
    };
    let Some(kept) = kept_steps(bits, limit.steps) else {
        return run(cnf, search, steps, order, assume, prefer, limit.steps);
    };
    let first = limit.steps - kept;
    match run(cnf, search, steps, order, assume, prefer, first)? {
        Found::Satisfied => Ok(Found::Satisfied),
        Found::Refuted(explained) => Ok(Found::Refuted(explained)),
        Found::Spent => {
            order.put_all_back(search);
            sweep(cnf, search, steps, assume, &prefer[..bits])
        }
    }
}
