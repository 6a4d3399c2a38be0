//! A number with its width, and each operator as a whole number modulo 2 to that width.

ghost use Rattle.std.specs.Prelude.{◌≡◌, ◌≤◌, ◌<◌, ◌%◌, ◌^◌, ◌/◌};
ghost use Rattle.svr_num.specs.Num.{Word, residue, signed_of, cut_of, extend_of, add_of, sub_of, mul_of, neg_of, div_of, rem_of, not_of, and_of, or_of, xor_of, shl_of, shr_of, sar_of, less_of};

use std::marker::Model;

/// A number of 1 to 64 bits: a value below 2 to the power of its width, and that width.
///
/// No call takes memory or refuses. Each is total: a divisor of 0 and a shift past the width
/// have their results too.
#[derive(Clone, Copy, PartialEq, Eq)]
pub struct Bits {
    value: u64,
    width: u8,
}

impl Model for Bits {
    ghost use Rattle.svr_num.specs.Num.{Word, IsWord};

    ghost Value = { Word };

    ghost view = { λ b. record { value = b.value; width = b.width } };

    ghost invariant = { λ b. IsWord b.value b.width };

    ghost inverse = { λ w. record { value = w.value; width = w.width } };
}

/// How many numbers have `width` bits.
fn size(width: u8) -> u128
    requires { width ≤ 64 }
    ensures { result ≡ 2 ^ width }
{
    1 << width
}

/// `x` without its `by` low bits, 0 where it has no more.
fn shifted_right(x: u64, by: u64) -> u64
    ensures { result ≡ x / 2 ^ by }
{
    if by >= 64 {
        return 0;
    }
    x >> by
}

/// A whole number modulo 2 to the power of `width`.
fn wrap_signed(z: i128, width: u8) -> Bits
    requires low { 1 ≤ width }
    requires high { width ≤ 64 }
    ensures { result ≡ record { value = residue width z; width = width } }
{
    let size = size(width);
    let value = if z >= 0 {
        z as u128 % size
    } else {
        size - 1 - (-1 - z) as u128 % size
    };
    Bits {
        value: value as u64,
        width,
    }
}

impl Bits {
    /// The low `width` bits of `x`; `width` is 1 to 64.
    pub fn wrap(x: u128, width: u8) -> Bits
        requires low { 1 ≤ width }
        requires high { width ≤ 64 }
        ensures { result ≡ record { value = cut_of width x; width = width } }
    {
        Bits {
            value: (x % size(width)) as u64,
            width,
        }
    }

    /// The number that the bits read as without a sign.
    pub fn value(self) -> u64
        ensures value { result ≡ self.value }
        ensures below { result < 2 ^ self.width }
    {
        self.value
    }

    /// How many bits there are, 1 to 64.
    pub fn width(self) -> u8
        ensures value { result ≡ self.width }
        ensures low { 1 ≤ result }
        ensures high { result ≤ 64 }
    {
        self.width
    }

    /// The number that the bits read as where the highest is the sign (6.11.3).
    pub fn signed(self) -> i128
        ensures { result ≡ signed_of self.width self.value }
    {
        if (self.value as u128) < size(self.width - 1) {
            self.value as i128
        } else {
            self.value as i128 - size(self.width) as i128
        }
    }

    /// The same number in `width` bits, from its own width to 64, filled with copies of its
    /// sign bit or with zeros (11.8.2).
    pub fn extend(self, width: u8, signed: bool) -> Bits
        requires low { self.width ≤ width }
        requires high { width ≤ 64 }
        ensures { result ≡ record { value = extend_of signed width self.width self.value; width = width } }
    {
        if signed {
            wrap_signed(self.signed(), width)
        } else {
            Bits::wrap(self.value as u128, width)
        }
    }

    /// The low `width` bits, from 1 to its own width (10.7).
    pub fn cut(self, width: u8) -> Bits
        requires low { 1 ≤ width }
        requires high { width ≤ self.width }
        ensures { result ≡ record { value = cut_of width self.value; width = width } }
    {
        Bits::wrap(self.value as u128, width)
    }

    /// The sum (11.4.3).
    pub fn add(self, other: Bits) -> Bits
        requires { other.width ≡ self.width }
        ensures { result ≡ record { value = add_of self.width self.value other.value; width = self.width } }
    {
        Bits::wrap(self.value as u128 + other.value as u128, self.width)
    }

    /// The difference (11.4.3).
    pub fn sub(self, other: Bits) -> Bits
        requires { other.width ≡ self.width }
        ensures { result ≡ record { value = sub_of self.width self.value other.value; width = self.width } }
    {
        wrap_signed(self.value as i128 - other.value as i128, self.width)
    }

    /// The product (11.4.3).
    pub fn mul(self, other: Bits) -> Bits
        requires { other.width ≡ self.width }
        ensures { result ≡ record { value = mul_of self.width self.value other.value; width = self.width } }
    {
        Bits::wrap(self.value as u128 * other.value as u128, self.width)
    }

    /// The quotient, truncated towards zero, and 0 at a divisor of 0 (11.4.3).
    pub fn div(self, other: Bits, signed: bool) -> Bits
        requires { other.width ≡ self.width }
        ensures { result ≡ record { value = div_of signed self.width self.value other.value; width = self.width } }
    {
        if other.value == 0 {
            Bits::wrap(0, self.width)
        } else if signed {
            wrap_signed(self.signed() / other.signed(), self.width)
        } else {
            Bits::wrap((self.value / other.value) as u128, self.width)
        }
    }

    /// The remainder, with the sign of the left operand, and 0 at a divisor of 0 (11.4.3).
    pub fn rem(self, other: Bits, signed: bool) -> Bits
        requires { other.width ≡ self.width }
        ensures { result ≡ record { value = rem_of signed self.width self.value other.value; width = self.width } }
    {
        if other.value == 0 {
            Bits::wrap(0, self.width)
        } else if signed {
            wrap_signed(self.signed() % other.signed(), self.width)
        } else {
            Bits::wrap((self.value % other.value) as u128, self.width)
        }
    }

    /// The number with the other sign (11.4.3).
    pub fn neg(self) -> Bits
        ensures { result ≡ record { value = neg_of self.width self.value; width = self.width } }
    {
        wrap_signed(-(self.value as i128), self.width)
    }

    /// Each bit turned over (11.4.8).
    pub fn not(self) -> Bits
        ensures { result ≡ record { value = not_of self.width self.value; width = self.width } }
    {
        Bits {
            value: (size(self.width) - 1 - self.value as u128) as u64,
            width: self.width,
        }
    }

    /// The bits that both have (11.4.8).
    pub fn and(self, other: Bits) -> Bits
        requires { other.width ≡ self.width }
        ensures { result ≡ record { value = and_of self.value other.value; width = self.width } }
    {
        Bits {
            value: self.value & other.value,
            width: self.width,
        }
    }

    /// The bits that one or both have (11.4.8).
    pub fn or(self, other: Bits) -> Bits
        requires { other.width ≡ self.width }
        ensures { result ≡ record { value = or_of self.value other.value; width = self.width } }
    {
        Bits {
            value: self.value | other.value,
            width: self.width,
        }
    }

    /// The bits that just one of them has (11.4.8).
    pub fn xor(self, other: Bits) -> Bits
        requires { other.width ≡ self.width }
        ensures { result ≡ record { value = xor_of self.value other.value; width = self.width } }
    {
        Bits {
            value: self.value ^ other.value,
            width: self.width,
        }
    }

    /// The bits moved up by `by` places; 0 where that is the width or more (11.4.10).
    pub fn shl(self, by: u64) -> Bits
        ensures { result ≡ record { value = shl_of self.width self.value by; width = self.width } }
    {
        if by >= 64 {
            Bits::wrap(0, self.width)
        } else {
            Bits::wrap((self.value as u128) << by, self.width)
        }
    }

    /// The bits moved down by `by` places, filled with zeros (11.4.10).
    pub fn shr(self, by: u64) -> Bits
        ensures { result ≡ record { value = shr_of self.value by; width = self.width } }
    {
        Bits {
            value: shifted_right(self.value, by),
            width: self.width,
        }
    }

    /// The bits moved down by `by` places, filled with copies of the sign bit (11.4.10).
    pub fn sar(self, by: u64) -> Bits
        ensures { result ≡ record { value = sar_of self.width self.value by; width = self.width } }
    {
        wrap_signed(self.signed() >> by.min(64), self.width)
    }

    /// Whether this number is below the other, both read with or both without a sign (11.4.4).
    pub fn less(self, other: Bits, signed: bool) -> bool
        requires { other.width ≡ self.width }
        ensures { result ≡ less_of signed self.width self.value other.value }
    {
        if signed {
            self.signed() < other.signed()
        } else {
            self.value < other.value
        }
    }
}
