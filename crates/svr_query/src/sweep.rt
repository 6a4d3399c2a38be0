// The sweep: the tree of the bits' values, searched to its end.

ghost use Rattle.std.specs.Prelude.{◌≡◌, ◌+◌, ◌^◌, ◌≤◌, ◌<◌, true, false, IfOk, IfSome, IfNone, length, take};
ghost use Rattle.svr_chain.specs.Clauses.{AreWithin, is_tautology};
ghost use Rattle.svr_chain.specs.Settled.{AreSettled};
ghost use Rattle.svr_query.specs.Found.{IsFound};
ghost use Rattle.svr_query.specs.Logged.{IsLogged};

use crate::memory::NoMemory;
use crate::propagate::propagate;
use crate::run::{Assumed, Found, decide, first_open, next_assumed, refuted_by, restart};
use svr_cdcl::Search;
use svr_chain::{Clause, Lit, Step, are_denied};

/// 2 to the power of `exponent`.
fn power(exponent: usize) -> u64
    requires { exponent < 64 }
    ensures { result ≡ 2 ^ exponent }
{
    1 << exponent
}

/// The steps to keep for a sweep over this many bits, where twice as many and two are within the budget.
pub fn kept_steps(bits: usize, budget: u64) -> Option<u64>
    ensures some { IfSome result (λ k. (k + 1 ≡ 2 ^ bits) × (k ≤ budget)) }
    ensures none { IfNone result (budget < 2 ^ (bits + 1)) }
{
    if bits >= 63 {
        return None;
    }
    let nodes = power(bits);
    if nodes <= budget / 2 {
        Some(nodes - 1)
    } else {
        None
    }
}

/// Decides the bits in the order of their numbers, and learns from each false clause one over negated decisions, up to an answer. In the tree of the bits' values each clause that it learns denies a child of a node none of whose children a clause denied before: so there are fewer than 2 ^ n of them, n being the number of bits.
pub fn sweep(
    cnf: &[Clause],
    search: &mut Search,
    steps: &mut Vec<Step>,
    assume: &[Lit],
    prefer: &[bool],
) -> Result<Found, NoMemory>
    requires within { AreWithin search.old.vars assume.now }
    requires apart { is_tautology assume.now ≡ false }
    requires bits { length prefer.now ≤ search.old.vars }
    requires settled { AreSettled (length prefer.now) search.old.vars cnf.now }
    requires logged { IsLogged cnf.now steps.old.items search.old }
    ensures vars { search.new.vars ≡ search.old.vars }
    ensures logged { IsLogged cnf.now steps.new.items search.new }
    ensures begins { take (length steps.old.items) steps.new.items ≡ steps.old.items }
    ensures few { length steps.new.items < length steps.old.items + 2 ^ length prefer.now }
    ensures found { IfOk result (IsFound search.new assume.now) }
    ensures answers { IfOk result (λ r. r ≡ Found.Spent → ⊥) }
{
    restart(search);
    let _ = search.level();
    'sweep: loop {
        match propagate(search) {
            Some(number) => {
                let _ = search.level();
                let explained = search.explain(number, None)?;
                if are_denied(assume, explained.lits.lits()) {
                    return Ok(Found::Refuted(explained));
                }
                search.backjump(explained.level);
                steps.reserve(1)?;
                search.learn(explained.lits)?;
                steps.push_reserved(explained.step);
            }
            None => match next_assumed(search, assume) {
                Assumed::Decide(lit) => decide(search, lit),
                Assumed::Denied(lit) => return refuted_by(search, assume, lit),
                Assumed::Done => match first_open(search, prefer) {
                    None => {
                        let _ = search.level();
                        return Ok(Found::Satisfied);
                    }
                    Some(lit) => decide(search, lit),
                },
            },
        }
    }
}
