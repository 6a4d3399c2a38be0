// The tokens that are left.

ghost use Rattle.std.specs.Prelude.{◌≡◌, ◌+◌, ◌<◌, ◌≤◌, ◌^◌, length, Ok, IfOk, OnErr};
ghost use Rattle.svr_tree.specs.Tokens.{numbered};
ghost use Rattle.svr_reader.specs.Outcomes as outcome;
ghost use Rattle.svr_reader.specs.Steps as spec;
ghost use Rattle.svr_reader.specs.Lists as programs;
ghost use Rattle.svr_reader.specs.Answers.{Answers, plainly};

use crate::fault::ReadFault;
use crate::fixed::{Fixed, is_fixed};
use std::marker::Model;
use svr_token::{Lexeme, Mark, NameKind};

/// What the tokens of a script spell, from some token on. Contracts see the tokens that are left, each with its number.
#[derive(Drop)]
pub struct Cursor<'a> {
    rest: &'a [Lexeme],
    at: u32,
}

impl<'a> Model for Cursor<'a> {
    ghost use Rattle.std.specs.Prelude.{List, ◌+◌, ◌<◌, ◌^◌, length};
    ghost use Rattle.svr_tree.specs.Tokens.{Tok, numbered};

    ghost Value = { List Tok };

    ghost view = { λ c. numbered c.at c.rest.now };

    ghost invariant = { λ c. c.at + length c.rest.now < 2 ^ 32 };
}

impl<'a> Cursor<'a> {
    /// All tokens of a script, numbered from 0.
    pub fn new(lexemes: &'a [Lexeme]) -> Cursor<'a>
        requires { length lexemes.now < 2 ^ 32 }
        ensures { result ≡ numbered 0 lexemes.now }
    {
        Cursor {
            rest: lexemes,
            at: 0,
        }
    }

    /// How many tokens are left: fewer than 2^32.
    #[tactic(auto, using(crate::proofs::Tokens::of_numbered))]
    pub fn left(&self) -> usize
        ensures is { result ≡ length self.now }
        ensures few { result < 2 ^ 32 }
    {
        self.rest.len()
    }

    /// What the next token spells. None at the end of the text.
    #[tactic(auto, using(crate::proofs::Tokens::of_numbered))]
    pub fn peek(&self) -> Option<Lexeme>
        ensures { result ≡ outcome.lexeme_at self.now }
    {
        match self.rest {
            [] => None,
            [first, ..] => Some(*first),
        }
    }

    /// The number of the next token, 0 at the end of the text.
    #[tactic(auto, using(crate::proofs::Tokens::of_numbered))]
    pub fn at(&self) -> u32
        ensures { result ≡ outcome.number_at self.now }
    {
        match self.rest {
            [] => 0,
            [_, ..] => self.at,
        }
    }

    /// Takes the next token, and gives its number.
    ///
    /// Errors: `Unexpected` at the end of the text. The cursor stays as it was.
    #[tactic(auto, using(crate::proofs::Tokens::of_numbered))]
    pub fn take(&mut self) -> Result<u32, ReadFault>
        ensures gives { Answers (λ n. n) (outcome.taken self.old) result self.new }
        ensures stays { OnErr result (self.new ≡ self.old) }
    {
        match self.rest {
            [] => Err(ReadFault::Unexpected(0)),
            [_, rest @ ..] => {
                let at = self.at;
                self.rest = rest;
                self.at = at + 1;
                Ok(at)
            }
        }
    }

    /// Takes the first token of a construct over a part of this height, where there is room for parts as high as `room`.
    ///
    /// Errors: `Unexpected` at the end of the text, `TooDeep` where there is no room. The cursor stays as it was.
    #[tactic(auto, using(crate::proofs::Tokens::of_numbered))]
    pub fn enter(&mut self, room: usize, height: usize) -> Result<u32, ReadFault>
        requires room { room + 1 < 2 ^ 64 }
        requires height { height ≤ room + 1 }
        ensures gives { Answers (λ n. n) (outcome.entered room height self.old) result self.new }
        ensures fits { IfOk result (λ n. height ≤ room) }
        ensures stays { OnErr result (self.new ≡ self.old) }
    {
        match self.rest {
            [] => Err(ReadFault::Unexpected(0)),
            [_, rest @ ..] => {
                if height > room {
                    return Err(ReadFault::TooDeep(self.rest.len()));
                }
                let at = self.at;
                self.rest = rest;
                self.at = at + 1;
                Ok(at)
            }
        }
    }

    /// The fault of a token that can't stand here.
    pub fn refuse(&self) -> ReadFault
        ensures { result ≡ ReadFault.Unexpected (length self.now) }
    {
        ReadFault::Unexpected(self.left())
    }

    /// The fault of a token that begins a construct for which there is no room.
    pub fn too_deep(&self) -> ReadFault
        ensures { result ≡ ReadFault.TooDeep (length self.now) }
    {
        ReadFault::TooDeep(self.left())
    }

    /// Whether the word or mark comes next.
    pub fn sees(&self, fixed: Fixed) -> bool
        ensures { result ≡ spec.sees fixed self.now }
    {
        is_fixed(fixed, self.peek())
    }

    /// Takes the word or mark, if it comes next, and tells whether it did.
    #[tactic(auto, unfolding(crate::specs::Steps::eaten))]
    pub fn eat(&mut self, fixed: Fixed) -> bool
        ensures { spec.eaten fixed self.old ≡ Ok (result, self.new) }
    {
        self.sees(fixed) && self.take().is_ok()
    }

    /// Takes the word or mark, which has to come next.
    ///
    /// Errors: `Unexpected` at any other token. The cursor stays as it was.
    #[tactic(auto, unfolding(crate::specs::Steps::expected))]
    pub fn expect(&mut self, fixed: Fixed) -> Result<(), ReadFault>
        ensures gives { Answers (λ u. u) (spec.expected fixed self.old) result self.new }
        ensures stays { OnErr result (self.new ≡ self.old) }
    {
        if self.sees(fixed) {
            self.take()?;
            Ok(())
        } else {
            Err(self.refuse())
        }
    }

    /// Takes a name: its number, and of which kind it is (IEEE 1800-2017, A.9.3).
    ///
    /// Errors: `Unexpected` at any other token. The cursor stays as it was.
    #[tactic(auto, unfolding(crate::specs::Steps::named))]
    pub fn known_name(&mut self) -> Result<(u32, NameKind), ReadFault>
        ensures gives { Answers (λ n. n) (spec.named self.old) result self.new }
        ensures stays { OnErr result (self.new ≡ self.old) }
    {
        match self.peek() {
            Some(Lexeme::Name(kind)) => Ok((self.take()?, kind)),
            _ => Err(self.refuse()),
        }
    }

    /// Takes a name, and gives its number.
    ///
    /// Errors: `Unexpected` at any other token. The cursor stays as it was.
    pub fn name(&mut self) -> Result<u32, ReadFault>
        ensures gives { Answers (λ n. n) (plainly programs.name self.old) result self.new }
        ensures stays { OnErr result (self.new ≡ self.old) }
    {
        let (name, _) = self.known_name()?;
        Ok(name)
    }

    /// The name behind this word or mark, or none of both.
    ///
    /// Errors: `Unexpected` behind the word or mark, at a token that is no name.
    #[tactic(auto, unfolding(crate::specs::Lists::name_behind))]
    pub fn name_behind(&mut self, fixed: Fixed) -> Result<Option<u32>, ReadFault>
        ensures { Answers (λ n. n) (plainly (programs.name_behind fixed) self.old) result self.new }
    {
        if self.eat(fixed) {
            Ok(Some(self.name()?))
        } else {
            Ok(None)
        }
    }

    /// `[ ( ) ]`, and whether it stands there.
    ///
    /// Errors: `Unexpected` behind `(`, at a token other than `)`.
    #[tactic(auto, unfolding(crate::specs::Lists::parens))]
    pub fn parens(&mut self) -> Result<bool, ReadFault>
        ensures { Answers (λ b. b) (plainly programs.parens self.old) result self.new }
    {
        if self.eat(Fixed::Mark(Mark::OpenParen)) {
            self.expect(Fixed::Mark(Mark::CloseParen))?;
            Ok(true)
        } else {
            Ok(false)
        }
    }
}
