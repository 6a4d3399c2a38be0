// What a token says.

ghost use Rattle.std.specs.Prelude.{◌≡◌, ◌≤◌, ◌==◌, min, fold, option_map};
ghost use Rattle.std.specs.List.{list_all};
ghost use Rattle.svr_lrat_text.specs.declared.limits.TheConstants.{MOST_SIZE};
ghost use Rattle.svr_lrat_text.specs.Words as spec;

use crate::limits::MOST_SIZE;
use svr_lrat_file::Number;

/// What a token says.
#[derive(Clone, Copy, PartialEq, Eq)]
pub(crate) enum Word {
    /// `p`, with which the header begins.
    Problem,
    /// `cnf`, the form of the formula.
    Cnf,
    /// `d`, of a line that deletes clauses.
    Delete,
    Number(Number),
    /// Bytes that no file holds.
    Other,
    /// The end of the text.
    End,
}

impl Word {
    pub(crate) fn is_problem(self) -> bool
        ensures { result ≡ spec.is_problem self }
    {
        matches!(self, Word::Problem)
    }

    pub(crate) fn is_cnf(self) -> bool
        ensures { result ≡ spec.is_cnf self }
    {
        matches!(self, Word::Cnf)
    }

    pub(crate) fn is_delete(self) -> bool
        ensures { result ≡ spec.is_delete self }
    {
        matches!(self, Word::Delete)
    }

    pub(crate) fn is_end(self) -> bool
        ensures { result ≡ spec.is_end self }
    {
        matches!(self, Word::End)
    }

    pub(crate) fn number(self) -> Option<Number>
        ensures { result ≡ spec.number_in self }
    {
        match self {
            Word::Number(number) => Some(number),
            Word::Problem | Word::Cnf | Word::Delete | Word::Other | Word::End => None,
        }
    }
}

/// Whether the byte is a space, tab, newline or carriage return.
pub(crate) fn is_blank(byte: u8) -> bool
    ensures { result ≡ spec.is_blank byte }
{
    matches!(byte, b' ' | b'\t' | b'\n' | b'\r')
}

fn is_digit(byte: u8) -> bool
    ensures { result ≡ spec.is_digit byte }
{
    byte >= b'0' && byte <= b'9'
}

fn are_digits(bytes: &[u8]) -> bool
    ensures { result ≡ list_all spec.is_digit bytes.now }
{
    bytes.iter().all(|byte| is_digit(*byte))
}

fn is_numeral(bytes: &[u8]) -> bool
    ensures { result ≡ spec.is_numeral bytes.now }
{
    match bytes.split_first() {
        None => false,
        Some(_) => are_digits(bytes),
    }
}

/// The number that the digits write, or `MOST_SIZE` where it is greater.
fn size_of(digits: &[u8]) -> u64
    ensures { result ≡ min (spec.value_of digits.now) MOST_SIZE }
{
    let mut size: u64 = 0;
    for byte in digits {
        let digit = u64::from(byte.saturating_sub(b'0'));
        size = (size * 10 + digit).min(MOST_SIZE);
    }
    size
}

fn signed_word(negative: bool, digits: &[u8]) -> Word
    ensures { result ≡ spec.signed_word negative digits.now }
{
    if !is_numeral(digits) {
        return Word::Other;
    }
    let size = size_of(digits);
    Word::Number(Number {
        negative: negative && size != 0,
        size,
    })
}

fn number_word(bytes: &[u8]) -> Word
    ensures { result ≡ spec.number_word bytes.now }
{
    let Some((first, digits)) = bytes.split_first() else {
        return Word::Other;
    };
    if *first == b'-' {
        signed_word(true, digits)
    } else {
        signed_word(false, bytes)
    }
}

/// What the bytes of a token say.
pub(crate) fn word_of(bytes: &[u8]) -> Word
    ensures { result ≡ spec.word_of bytes.now }
{
    if bytes == b"p".as_slice() {
        Word::Problem
    } else if bytes == b"cnf".as_slice() {
        Word::Cnf
    } else if bytes == b"d".as_slice() {
        Word::Delete
    } else {
        number_word(bytes)
    }
}
