// Places of a text.
ghost use Rattle.std.specs.Prelude.{◌≡◌, ◌<◌, length};
ghost use Rattle.svr_refusal.specs.Place as spec;

use svr_token::Token;

/// A line and a column, both counted from 1. A newline ends a line, and each byte takes one column.
#[derive(Clone, Copy, PartialEq, Eq)]
pub struct Place {
    pub line: u32,
    pub column: u32,
}

/// The place of the byte of this number, counted from 0, in a text whose lines and columns 32 bits hold. As many as there are bytes: the end of the text.
#[tactic(auto, using(std::proofs::lemmas::List::take_min))]
pub fn place_of(text: &[u8], at: usize) -> Place
    requires { length text.now < 4294967295 }
    ensures { result ≡ spec.place_of text.now at }
{
    let front = &text[..at.min(text.len())];
    let mut line = 1;
    let mut column = 1;
    for byte in front {
        if *byte == b'\n' {
            line += 1;
            column = 1;
        } else {
            column += 1;
        }
    }
    Place { line, column }
}

/// Where the token of this number begins, counted from 0. As many as there are tokens: the end of the text.
pub fn token_start(text: &[u8], tokens: &[Token], token: u32) -> usize
    ensures { result ≡ spec.token_start text.now tokens.now token }
{
    match tokens.get(token as usize) {
        Some(token) => token.start as usize,
        None => text.len(),
    }
}
