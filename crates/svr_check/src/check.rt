// What is said of a text.

ghost use Rattle.std.specs.Prelude.{◌≡◌, ◌≤◌, length, IfOk};
ghost use Rattle.svr_lrat_text.specs.declared.limits.TheConstants.{MOST_TEXT};
ghost use Rattle.svr_refusal.specs.Numbers.{number_of};
ghost use Rattle.svr_refusal.specs.Place as spec;
ghost use Rattle.svr_check.specs.Checked.{IsChecked};

use std::alloc::{AllocError, Global};
use svr_lrat::check_lrat;
use svr_lrat_judge::LratVerdict;
use svr_lrat_text::LratFault;
use svr_refusal::{Place, Refusal, place_of};

/// What is said of a text.
#[derive(Clone, Copy)]
pub enum Checked {
    /// It is a file, and this is the verdict on it.
    Judged(LratVerdict),
    /// It is no file within the limits. The number of this refusal, and the place of the token at fault.
    Refused { number: u8, place: Place },
}

/// The refusal of a text at the byte of this number, counted from 0.
fn refused(text: &[u8], at: u32, why: Refusal) -> Checked
    requires { length text.now ≤ MOST_TEXT }
    ensures { result ≡ Checked.Refused (number_of why) (spec.place_of text.now at) }
{
    Checked::Refused {
        number: why.number(),
        place: place_of(text, at as usize),
    }
}

/// What is said of a text of at most 67,108,864 bytes: the verdict on the file that it is, or its first fault.
///
/// With a token that no file goes on with, the number is 29; with one that is too large, 30. The end of the text counts as a token.
pub fn check_text(alloc: Global, text: &[u8]) -> Result<Checked, AllocError>
    requires { length text.now ≤ MOST_TEXT }
    ensures { IfOk result (λ said. IsChecked text.now said) }
{
    match check_lrat(alloc, text) {
        Ok(verdict) => Ok(Checked::Judged(verdict)),
        Err(LratFault::Bad { at }) => Ok(refused(text, at, Refusal::NoDerivation)),
        Err(LratFault::TooLarge { at }) => Ok(refused(text, at, Refusal::DerivationTooLarge)),
        Err(LratFault::NoMemory) => Err(AllocError),
    }
}
