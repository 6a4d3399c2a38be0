// Texts read and judged.

ghost use Rattle.std.specs.Prelude.{◌≡◌, ◌⊎◌, ◌≤◌, ℕ, [], length, IfOk, IfErr, MatchResult};
ghost use Rattle.svr_chain.specs.Valuations.{HaveNoValuation};
ghost use Rattle.svr_lrat_file.specs.Views.{FileView};
ghost use Rattle.svr_lrat_text.specs.declared.limits.TheConstants.{MOST_TEXT};
ghost use Rattle.svr_lrat_text.specs.declared.fault.LratFault.TheVariants as fault;
ghost use Rattle.svr_lrat_text.specs.Faults.{IsFileOf, IsFaultOf, IsBad, IsTooLarge};
ghost use Rattle.svr_lrat_judge.specs.declared.verdict.LratVerdict.TheVariants as says;
ghost use Rattle.svr_lrat_judge.specs.Verdict.{verdict_of};

use std::alloc::Global;
use svr_lrat_judge::{LratVerdict, judge};
use svr_lrat_text::{LratFault, read_lrat};

/// The verdict on a text of at most `MOST_TEXT` bytes: that on the file which it writes, up to the first line at fault. A text that writes none within the limits is answered by its first fault.
///
/// Accepted means that no valuation meets the clauses of the file.
pub fn check_lrat(alloc: Global, text: &[u8]) -> Result<LratVerdict, LratFault>
    requires { length text.now ≤ MOST_TEXT }
    ensures file { IfOk result (λ v. (f : FileView) × IsFileOf text.now f) }
    ensures sound { IfOk result (λ v. v ≡ says.Accepted → (f : FileView) → IsFileOf text.now f → HaveNoValuation f.clauses []) }
    ensures fault { IfErr result (λ e. IsFaultOf text.now e) }

    // Want of memory aside, a file is answered by its verdict, and any other text by its first fault.
    ensures verdict { (f : FileView) → IsFileOf text.now f → MatchResult result (λ v. v ≡ verdict_of f) (λ e. e ≡ fault.NoMemory) }
    ensures only_bad { (at : ℕ) → IsBad text.now at → MatchResult result (λ v. ⊥) (λ e. (e ≡ fault.Bad at) ⊎ (e ≡ fault.NoMemory)) }
    ensures only_large { (at : ℕ) → IsTooLarge text.now at → MatchResult result (λ v. ⊥) (λ e. (e ≡ fault.TooLarge at) ⊎ (e ≡ fault.NoMemory)) }
{
    let file = read_lrat(alloc, text)?;
    match judge(alloc, file) {
        Ok(verdict) => Ok(verdict),
        Err(_) => Err(LratFault::NoMemory),
    }
}
