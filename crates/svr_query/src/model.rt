// Whether values meet clauses and literals.

ghost use Rattle.std.specs.Prelude.{◌≡◌, ◌&&◌};
ghost use Rattle.std.specs.List.{list_all};
ghost use Rattle.svr_chain.specs.Valuations.{clause_value, lit_value};
ghost use Rattle.svr_query.specs.Logged.{valuation_of};

use svr_chain::{Clause, Lit};

/// Whether the literal is true under these values of the variables from 1 on.
#[tactic(auto, unfolding(svr_chain::specs::Valuations::lit_value))]
fn lit_value(values: &[bool], lit: Lit) -> bool
    ensures { result ≡ lit_value (valuation_of values.now) lit }
{
    let value = match values.get(lit.var.saturating_sub(1) as usize) {
        Some(value) => *value,
        None => false,
    };
    if lit.neg { !value } else { value }
}

/// Whether one of the literals is true.
#[tactic(auto, unfolding(svr_chain::specs::Valuations::clause_value))]
fn clause_value(values: &[bool], lits: &[Lit]) -> bool
    ensures { result ≡ clause_value (valuation_of values.now) lits.now }
{
    lits.iter().any(|lit| lit_value(values, *lit))
}

fn are_clauses_true(values: &[bool], clauses: &[Clause]) -> bool
    ensures { result ≡ list_all (clause_value (valuation_of values.now)) clauses.now }
{
    clauses
        .iter()
        .all(|clause| clause_value(values, clause.lits()))
}

fn are_lits_true(values: &[bool], lits: &[Lit]) -> bool
    ensures { result ≡ list_all (lit_value (valuation_of values.now)) lits.now }
{
    lits.iter().all(|lit| lit_value(values, *lit))
}

/// Whether each clause and each assumed literal is true. The assumed literals are looked at first, since they are few beside the clauses.
pub fn is_model(clauses: &[Clause], assume: &[Lit], values: &[bool]) -> bool
    ensures { result ≡ (list_all (clause_value (valuation_of values.now)) clauses.now
        && list_all (lit_value (valuation_of values.now)) assume.now) }
{
    if !are_lits_true(values, assume) {
        return false;
    }
    are_clauses_true(values, clauses)
}
