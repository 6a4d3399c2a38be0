// Integer literals.
ghost use Rattle.std.specs.Prelude.{◌≡◌, ◌<◌, ◌≤◌, ◌%◌, ◌^◌, ℕ, Bool, List, IfOk, IfErr, IfSome, IfNone};
ghost use Rattle.svr_token.specs.declared.radix.Radix.{Radix as RadixType};
ghost use Rattle.svr_token.specs.Bytes.{base_of};
ghost use Rattle.svr_token.specs.Lexemes.{number_of, value_of, width_of, is_signed, HasZeroSize, IsOverWide};
ghost use Rattle.svr_token.specs.Faults.{BeginsWithHead};
ghost use Rattle.svr_token.specs.Literals.{literal_seen, is_sign, SplitsDigits, SplitsSign, IsFrontLiteral};

use crate::bytes::{ByteClass, digit_of, split_while};
use crate::lexeme::Lexeme;
use crate::number::{low_bits, number_below, number_modulo};
use crate::radix::Radix;

/// An integer literal by its parts (IEEE 1800-2017, 5.7.1).
#[derive(Clone, Copy)]
pub enum Literal<'a> {
    /// Decimal digits.
    Decimal(&'a [u8]),
    /// A size, which may be empty, a sign, a radix and digits.
    Based {
        size: &'a [u8],
        signed: bool,
        radix: Radix,
        digits: &'a [u8],
    },
    /// `'0` or `'1`.
    Unbased(bool),
}

/// Why a literal has no value.
#[derive(Clone, Copy)]
pub enum LiteralFault {
    /// Its size is 0.
    ZeroSize,
    /// Its size is over 64, or it has none and its number is 2^32 or more.
    TooWide,
}

/// The literal that a text begins with.
#[derive(Clone, Copy)]
pub enum FrontLiteral<'a> {
    /// There is none.
    Absent,
    /// There is the letter of a radix, and no digit of it behind.
    LacksDigit,
    /// The longest one, and what follows it.
    Found {
        literal: Literal<'a>,
        rest: &'a [u8],
    },
}

#[derive(Clone, Copy)]
struct Head<'a> {
    size: &'a [u8],
    signed: bool,
    radix: Radix,
    rest: &'a [u8],
}

/// The longest literal that the text begins with.
pub fn front_literal(text: &[u8]) -> FrontLiteral<'_>
    ensures { IsFrontLiteral text.now result }
{
    if let Some(head) = front_head(text) {
        return based_literal(text, head);
    }
    let (digits, rest) = split_digits(text, Radix::Decimal);
    if !digits.is_empty() {
        return FrontLiteral::Found {
            literal: Literal::Decimal(digits),
            rest,
        };
    }
    if let Some(rest) = text.strip_prefix(b"'0") {
        return FrontLiteral::Found {
            literal: Literal::Unbased(false),
            rest,
        };
    }
    match text.strip_prefix(b"'1") {
        Some(rest) => FrontLiteral::Found {
            literal: Literal::Unbased(true),
            rest,
        },
        None => FrontLiteral::Absent,
    }
}

fn based_literal<'a>(text: &'a [u8], head: Head<'a>) -> FrontLiteral<'a>
    requires { BeginsWithHead text.now head.size.now head.signed head.radix head.rest.now }
    ensures { IsFrontLiteral text.now result }
{
    let Head {
        size,
        signed,
        radix,
        rest,
    } = head;
    let (digits, rest) = split_digits(rest, radix);
    if digits.is_empty() {
        return FrontLiteral::LacksDigit;
    }
    FrontLiteral::Found {
        literal: Literal::Based {
            size,
            signed,
            radix,
            digits,
        },
        rest,
    }
}

// What stands before the digits of a based literal.
fn front_head(text: &[u8]) -> Option<Head<'_>>
    ensures found { IfSome result (λ h. BeginsWithHead text.now h.size.now h.signed h.radix h.rest.now) }
    ensures none { IfNone result ((size : List ℕ) (signed : Bool) (radix : RadixType) (rest : List ℕ) → BeginsWithHead text.now size signed radix rest → ⊥) }
{
    let (size, rest) = split_digits(text, Radix::Decimal);
    let [quote, rest @ ..] = rest else {
        return None;
    };
    if *quote != b'\'' {
        return None;
    }
    let (signed, rest) = split_sign(rest);
    let [letter, rest @ ..] = rest else {
        return None;
    };
    let radix = Radix::of(*letter)?;
    Some(Head {
        size,
        signed,
        radix,
        rest,
    })
}

fn split_sign(text: &[u8]) -> (bool, &[u8])
    ensures { SplitsSign text.now result.0 result.1.now }
{
    match text.split_first() {
        Some((first, rest)) if is_sign_letter(*first) => (true, rest),
        _ => (false, text),
    }
}

fn is_sign_letter(byte: u8) -> bool
    ensures { result ≡ is_sign byte }
{
    byte == b's' || byte == b'S'
}

// The longest front that is digits, with underscores after the first.
fn split_digits(text: &[u8], radix: Radix) -> (&[u8], &[u8])
    ensures { SplitsDigits (base_of radix) text.now result.0.now result.1.now }
{
    match text.first() {
        Some(byte) if digit_of(*byte) < radix.base() => split_while(text, ByteClass::Digits(radix)),
        _ => text.split_at(0),
    }
}

impl Literal<'_> {
    /// Its value, width and sign.
    pub fn lexeme(self) -> Result<Lexeme, LiteralFault>
        ensures value { let l = literal_seen self.entry in IfOk result (λ x. x ≡ Lexeme.Literal (value_of l) (width_of l) (is_signed l)) }
        ensures lawful { let l = literal_seen self.entry in IfOk result (λ x. (HasZeroSize l → ⊥) × (IsOverWide l → ⊥)) }
        ensures zero_size { result ≡ Err LiteralFault.ZeroSize → HasZeroSize (literal_seen self.entry) }
        ensures too_wide { result ≡ Err LiteralFault.TooWide → IsOverWide (literal_seen self.entry) × (HasZeroSize (literal_seen self.entry) → ⊥) }
    {
        let (value, width, signed) = match self {
            Literal::Decimal(digits) => (unsized_value(digits, Radix::Decimal)?, 32, true),
            Literal::Based {
                size,
                signed,
                radix,
                digits,
            } => {
                if size.is_empty() {
                    (unsized_value(digits, radix)?, 32, signed)
                } else {
                    let width = width_from(size)?;
                    (low_bits(number_modulo(digits, radix), width), width, signed)
                }
            }
            Literal::Unbased(bit) => (u64::from(bit), 0, false),
        };
        Ok(Lexeme::Literal {
            value,
            width,
            signed,
        })
    }
}

// The number of a literal without a size.
fn unsized_value(digits: &[u8], radix: Radix) -> Result<u64, LiteralFault>
    ensures value { IfOk result (λ n. (n ≡ number_of (base_of radix) digits.now) × (n < 2 ^ 32)) }
    ensures too_wide { IfErr result (λ e. (e ≡ LiteralFault.TooWide) × (2 ^ 32 ≤ number_of (base_of radix) digits.now)) }
{
    match number_below(digits, radix) {
        Some(number) => Ok(u64::from(number)),
        None => Err(LiteralFault::TooWide),
    }
}

// The width that a size writes.
fn width_from(size: &[u8]) -> Result<u8, LiteralFault>
    ensures value { IfOk result (λ n. (n ≡ number_of 10 size.now) × (0 < n) × (n ≤ 64)) }
    ensures zero_size { result ≡ Err LiteralFault.ZeroSize → number_of 10 size.now ≡ 0 }
    ensures too_wide { result ≡ Err LiteralFault.TooWide → 64 < number_of 10 size.now }
{
    match number_below(size, Radix::Decimal) {
        Some(0) => Err(LiteralFault::ZeroSize),
        Some(width) if width <= 64 => Ok(width as u8),
        _ => Err(LiteralFault::TooWide),
    }
}
