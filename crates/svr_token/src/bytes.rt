// Bytes by what they may stand in.
ghost use Rattle.std.specs.Prelude.{◌≡◌, ◌≤◌, true, take, drop, length};
ghost use Rattle.std.specs.Char.{digit_value};
ghost use Rattle.std.specs.List.{list_all};
ghost use Rattle.svr_token.specs.Bytes.{class_test, is_blank, is_name_start, Stops, Splits};

use crate::radix::Radix;

/// The bytes that may follow one another.
#[derive(Clone, Copy)]
pub enum ByteClass {
    /// A letter, a digit, `_` or `$`.
    Name,
    /// A digit of the radix, or `_`.
    Digits(Radix),
    /// Any byte but a newline.
    WithinLine,
}

impl ByteClass {
    /// Whether the byte is one of them.
    pub fn contains(self, byte: u8) -> bool
        ensures { result ≡ class_test self byte }
    {
        match self {
            ByteClass::Name => may_start_name(byte) || byte.is_ascii_digit() || byte == b'$',
            ByteClass::Digits(radix) => digit_of(byte) < radix.base() || byte == b'_',
            ByteClass::WithinLine => byte != b'\n',
        }
    }
}

/// Whether the byte is a space, tab, newline, form feed or carriage return.
pub fn is_blank_byte(byte: u8) -> bool
    ensures { result ≡ is_blank byte }
{
    matches!(byte, b' ' | b'\t' | b'\n' | 12 | b'\r')
}

/// Whether the byte is a letter or `_`.
pub fn may_start_name(byte: u8) -> bool
    ensures { result ≡ is_name_start byte }
{
    byte.is_ascii_alphabetic() || byte == b'_'
}

/// The value of a digit or a letter, from 0 for `0` to 35 for `z` and `Z`, and 36 for any other byte.
pub(crate) fn digit_of(byte: u8) -> u8
    ensures value { result ≡ digit_value byte }
    ensures small { result ≤ 36 }
{
    match byte {
        b'0'..=b'9' => byte - b'0',
        b'a'..=b'z' => byte - b'a' + 10,
        b'A'..=b'Z' => byte - b'A' + 10,
        _ => 36,
    }
}

/// The longest front of such bytes, and what follows it.
pub fn split_while(text: &[u8], class: ByteClass) -> (&[u8], &[u8])
    ensures { Splits (class_test class) text.now result.0.now result.1.now }
{
    let len = front_len(text, class);
    text.split_at(len)
}

fn front_len(text: &[u8], class: ByteClass) -> usize
    ensures within { result ≤ length text.now }
    ensures passes { list_all (class_test class) (take result text.now) ≡ true }
    ensures stops { Stops (class_test class) (drop result text.now) }
{
    for (i, byte) in text.iter().enumerate() {
        if !class.contains(*byte) {
            return i;
        }
    }
    text.len()
}
