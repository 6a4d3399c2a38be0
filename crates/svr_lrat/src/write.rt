// Refutations as text.

ghost use Rattle.std.specs.Prelude.{◌≡◌, true, unwrap_or, IfOk, IsSome};
ghost use Rattle.svr_chain.specs.Log as chain;
ghost use Rattle.svr_chain.specs.declared.log.Verdict.TheVariants as log_is;
ghost use Rattle.svr_lrat_judge.specs.declared.verdict.LratVerdict.TheVariants as says;
ghost use Rattle.svr_lrat_judge.specs.Verdict.{verdict_of};
ghost use Rattle.svr_lrat_text.specs.Faults.{IsFileOf};
ghost use Rattle.svr_lrat_made.specs.Made.{file_of};
ghost use Rattle.svr_lrat_made.specs.Leads.{each_leads_on};
ghost use Rattle.svr_lrat_printed.specs.Text.{text_of};
ghost use Rattle.svr_lrat.specs.Limits.{AreWithinLimits};

use std::alloc::Global;
use svr_chain::{Cnf, Lit, NoMemory, Refutation};
use svr_lrat_made::made;
use svr_lrat_printed::printed;

/// A refutation as the text of a hinted derivation: the clauses, a unit clause for each assumed literal, and a line for each step that the goal depends on, with its linked clauses from the last to the first and then its start as hints. Where the clause of the goal has literals, a last line without any has the units that deny them as hints, and the goal.
///
/// The derivation is accepted, each of its lines but the last is a hint of a later one, and within the limits of the form it is what the text writes.
#[tactic(auto, using(crate::proofs::Within::file_within))]
pub fn to_lrat(
    alloc: Global,
    cnf: &Cnf,
    assume: &[Lit],
    log: &Refutation,
) -> Result<Vec<u8>, NoMemory>
    requires goal { IsSome log.now.goal }
    requires accepted { chain.verdict_of cnf.now.clauses.items assume.now log.now.steps log.now.goal ≡ log_is.Accepted }
    ensures text { IfOk result (λ t. t.items ≡ text_of (file_of cnf.now.vars cnf.now.clauses.items assume.now log.now.steps (unwrap_or log.now.goal 0))) }
    ensures file { AreWithinLimits cnf.now.vars cnf.now.clauses.items assume.now log.now.steps → IfOk result (λ t. IsFileOf t.items (file_of cnf.now.vars cnf.now.clauses.items assume.now log.now.steps (unwrap_or log.now.goal 0))) }
    ensures accepted { IfOk result (λ t. verdict_of (file_of cnf.now.vars cnf.now.clauses.items assume.now log.now.steps (unwrap_or log.now.goal 0)) ≡ says.Accepted) }
    ensures leads { IfOk result (λ t. let f = file_of cnf.now.vars cnf.now.clauses.items assume.now log.now.steps (unwrap_or log.now.goal 0) in each_leads_on f.lines ≡ true) }
{
    let file = made(alloc, cnf, assume, log)?;
    printed(alloc, &file)
}
