// How many bits a size has in a question.

ghost use Rattle.std.specs.Prelude.{◌≡◌, ◌<◌, ◌^◌, nat_lt};
ghost use Rattle.svr_phase.specs.Sizes as spec;
ghost use Rattle.svr_sized.specs.Questions.{bits_over};

use crate::scope::Scope;

/// Whether numbers up to the cap have no more than so many bits.
fn is_enough(bits: u8, cap: u32) -> bool
    requires { bits < 32 }
    ensures { result ≡ nat_lt cap (2 ^ bits) }
{
    u64::from(cap) < 1 << bits
}

/// The fewest bits that numbers up to the cap have.
fn cap_bits(cap: u32) -> u8
    ensures { result ≡ spec.cap_bits cap }
{
    for bits in 0..32 {
        if is_enough(bits, cap) {
            return bits;
        }
    }
    32
}

/// The bits of each size in a question: all 32 where there is no cap.
pub(crate) fn bits_for(scope: Scope, cap: u32) -> u8
    ensures { result ≡ bits_over cap scope }
{
    match scope {
        Scope::Wished | Scope::Capped => cap_bits(cap),
        Scope::Uncapped => 32,
    }
}
