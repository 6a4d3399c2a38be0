// The tokens of a text, one after the other.

ghost use Rattle.std.specs.Prelude.{◌≡◌, ◌≤◌, ◌∷◌, ◌++◌, true, false, length, take, drop};
ghost use Rattle.std.specs.List.{list_all};
ghost use Rattle.svr_lrat_text.specs.declared.limits.TheConstants.{MOST_TEXT};
ghost use Rattle.svr_lrat_text.specs.Words.{tokens, tokens_of, is_of_kind, Ends, token_word};
ghost use Rattle.svr_lrat_text.specs.Reading.{behind, TakesDelete, HasNoDelete};

use crate::header::header_start;
use crate::limits::MOST_TEXT;
use crate::word::{Word, is_blank, word_of};
use std::marker::Model;

/// A token, and the place of its first byte.
#[derive(Clone, Copy, PartialEq, Eq)]
pub(crate) struct Token {
    pub(crate) at: u32,
    pub(crate) word: Word,
}

fn is_of_kind(byte: u8, blank: bool) -> bool
    ensures { result ≡ is_of_kind blank byte }
{
    if blank {
        is_blank(byte)
    } else {
        !is_blank(byte)
    }
}

/// How many bytes the text begins with that are blank, or are not.
fn front_len(text: &[u8], blank: bool) -> usize
    ensures within { result ≤ length text.now }
    ensures passes { list_all (is_of_kind blank) (take result text.now) ≡ true }
    ensures stops { Ends blank (drop result text.now) }
{
    for (i, byte) in text.iter().enumerate() {
        if !is_of_kind(*byte, blank) {
            return i;
        }
    }
    text.len()
}

/// What the bytes of a token say. No bytes are left at the end of the text.
fn token_word(bytes: &[u8]) -> Word
    ensures { result ≡ token_word bytes.now }
{
    match bytes.split_first() {
        None => Word::End,
        Some(_) => word_of(bytes),
    }
}

/// The bytes of a text that are still to be read.
#[derive(Drop)]
pub(crate) struct Cursor<'a> {
    rest: &'a [u8],
    at: u32,
}

impl<'a> Model for Cursor<'a> {
    ghost use Rattle.std.specs.Prelude.{◌+◌, ◌≤◌, List, length, true};
    ghost use Rattle.svr_lrat_text.specs.declared.limits.TheConstants.{MOST_TEXT};
    ghost use Rattle.svr_lrat_text.specs.declared.cursor.Token.{Token};
    ghost use Rattle.svr_lrat_text.specs.Words.{tokens};

    ghost Value = { List Token };

    ghost view = { λ c. tokens true c.at c.rest.now };

    ghost invariant = { λ c. c.at + length c.rest.now ≤ MOST_TEXT };
}

impl<'a> Cursor<'a> {
    /// All tokens of the text.
    pub(crate) fn new(text: &'a [u8]) -> Cursor<'a>
        requires { length text.now ≤ MOST_TEXT }
        ensures { result ≡ tokens_of text.now }
    {
        let start = header_start(text);
        let (_, rest) = text.split_at(start);
        Cursor {
            rest,
            at: start as u32,
        }
    }

    /// Takes one token. The end of the text is the last.
    pub(crate) fn next(&mut self) -> Token
        ensures { self.old ≡ result ∷ behind result.word self.new }
    {
        let (gap, from) = self.rest.split_at(front_len(self.rest, true));
        let (bytes, rest) = from.split_at(front_len(from, false));
        let at = self.at + gap.len() as u32;
        self.at = at + bytes.len() as u32;
        self.rest = rest;
        Token {
            at,
            word: token_word(bytes),
        }
    }

    /// Whether the next token is `d`, which is then taken.
    pub(crate) fn takes_delete(&mut self) -> bool
        ensures yes { result ≡ true → TakesDelete self.old self.new }
        ensures no { result ≡ false → (self.new ≡ self.old) × HasNoDelete self.old }
    {
        let mut ahead = Cursor {
            rest: self.rest,
            at: self.at,
        };
        if ahead.next().word.is_delete() {
            self.rest = ahead.rest;
            self.at = ahead.at;
            true
        } else {
            false
        }
    }
}
