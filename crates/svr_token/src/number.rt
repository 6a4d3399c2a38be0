// The numbers that digits write.
ghost use Rattle.std.specs.Prelude.{◌≡◌, ◌<◌, ◌≤◌, ◌%◌, ◌^◌, IfSome, IfNone};
ghost use Rattle.svr_token.specs.Bytes.{base_of};
ghost use Rattle.svr_token.specs.Lexemes.{number_of};

use crate::bytes::digit_of;
use crate::radix::Radix;

// The number, where it is below 2^32.
pub(crate) fn number_below(digits: &[u8], radix: Radix) -> Option<u32>
    ensures value { IfSome result (λ n. (n ≡ number_of (base_of radix) digits.now) × (n < 2 ^ 32)) }
    ensures none { IfNone result (2 ^ 32 ≤ number_of (base_of radix) digits.now) }
{
    let base = u32::from(radix.base());
    let mut number: u32 = 0;
    for byte in digits {
        if *byte != b'_' {
            number = number
                .checked_mul(base)?
                .checked_add(u32::from(digit_of(*byte)))?;
        }
    }
    Some(number)
}

// The number modulo 2^64.
pub(crate) fn number_modulo(digits: &[u8], radix: Radix) -> u64
    ensures { result ≡ number_of (base_of radix) digits.now % 2 ^ 64 }
{
    let base = u64::from(radix.base());
    let mut number: u64 = 0;
    for byte in digits {
        if *byte != b'_' {
            number = number
                .wrapping_mul(base)
                .wrapping_add(u64::from(digit_of(*byte)));
        }
    }
    number
}

// The number modulo 2^width.
pub(crate) fn low_bits(number: u64, width: u8) -> u64
    requires { width ≤ 64 }
    ensures { result ≡ number % 2 ^ width }
{
    if width == 64 {
        number
    } else {
        number % (1 << width)
    }
}
