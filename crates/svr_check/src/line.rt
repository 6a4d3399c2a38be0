// The line for a verdict.

ghost use Rattle.std.specs.Prelude.{◌≡◌, IfOk, string_bytes};
ghost use Rattle.svr_check.specs.Lines as spec;

use std::alloc::{AllocError, Global};
use svr_lrat_judge::{LratReason, LratVerdict};

/// The word for a reason.
fn word<'a>(reason: LratReason) -> &'a str
    ensures { result.now ≡ spec.word reason }
{
    match reason {
        LratReason::Order => "order",
        LratReason::Negative => "negative",
        LratReason::Hint => "hint",
        LratReason::TwoLeft => "open",
        LratReason::Short => "short",
        LratReason::Delete => "delete",
        LratReason::Unfinished => "unfinished",
    }
}

fn rejected_line(alloc: Global, id: u64, reason: LratReason) -> Result<String, AllocError>
    ensures { IfOk result (λ s. string_bytes s ≡ spec.rejected_line id reason) }
{
    let why = word(reason);
    format!(in alloc; "rejected {id} {why}\n")
}

/// The line for a verdict: `accepted`, or `rejected`, the identifier of the first line at fault and the reason there.
pub fn verdict_line(alloc: Global, verdict: LratVerdict) -> Result<String, AllocError>
    ensures { IfOk result (λ s. string_bytes s ≡ spec.verdict_line verdict) }
{
    match verdict {
        LratVerdict::Accepted => String::from_str(alloc, "accepted\n"),
        LratVerdict::Rejected { id, reason } => rejected_line(alloc, id, reason),
    }
}
