// Why the cover groups of a text are refused.

ghost use Rattle.std.specs.Prelude.{◌≡◌, ◌≤◌, length};
ghost use Rattle.svr_limits.specs.declared.limit.TheConstants.{TEXT_LIMIT};
ghost use Rattle.svr_refusal.specs.Numbers.{number_of};
ghost use Rattle.svr_refusal.specs.Place as spec;

use svr_refusal::{Place, Refusal, place_of, token_start};
use svr_token::Token;
use svr_typed::NoMemory;

/// Why the cover groups of a text are refused.
#[derive(Clone, Copy)]
pub enum CoverageFault {
    /// A refusal by its number, and its place.
    Refused { number: u8, place: Place },
    /// There was no memory.
    NoMemory,
}

impl From<NoMemory> for CoverageFault {
    ghost use Rattle.std.specs.Prelude.{◌≡◌};
    ghost use Rattle.svr_coverage.specs.declared.fault.CoverageFault.TheVariants as fault;

    ghost from_gives = { λ _ e. e ≡ fault.NoMemory };

    fn from(_error: NoMemory) -> CoverageFault {
        CoverageFault::NoMemory
    }
}

/// A refusal of this number at a byte, counted from 0.
fn refused(text: &[u8], at: usize, number: u8) -> CoverageFault
    requires { length text.now ≤ TEXT_LIMIT }
    ensures { result ≡ CoverageFault.Refused number (spec.place_of text.now at) }
{
    CoverageFault::Refused {
        number,
        place: place_of(text, at),
    }
}

/// A refusal at the byte of this number, counted from 0.
pub(crate) fn at_byte(text: &[u8], at: u32, why: Refusal) -> CoverageFault
    requires { length text.now ≤ TEXT_LIMIT }
    ensures { result ≡ CoverageFault.Refused (number_of why) (spec.place_of text.now at) }
{
    refused(text, at as usize, why.number())
}

/// A refusal of this number at a token.
pub(crate) fn at_token(text: &[u8], tokens: &[Token], token: u32, number: u8) -> CoverageFault
    requires { length text.now ≤ TEXT_LIMIT }
    ensures { result ≡ CoverageFault.Refused number (spec.place_of text.now (spec.token_start text.now tokens.now token)) }
{
    refused(text, token_start(text, tokens, token), number)
}
