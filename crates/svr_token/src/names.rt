// The bytes of tokens, by number.

ghost use Rattle.std.specs.Prelude.{◌≡◌, slice_range};
ghost use Rattle.svr_token.specs.Names.{names_of};

use crate::token::Token;

/// A text and its tokens, which the numbers of a tree name.
#[derive(Clone, Copy)]
pub struct Names<'a> {
    pub text: &'a [u8],
    pub tokens: &'a [Token],
}

impl<'a> Names<'a> {
    /// What the token of this number spells, nothing where there is none.
    pub fn name(&self, at: u32) -> &'a [u8]
        ensures { result.now ≡ names_of self.now at }
    {
        match self.tokens.get(at as usize) {
            Some(token) => cut(self.text, token.start as usize, token.stop as usize),
            None => b"",
        }
    }
}

/// The bytes from one place on, as far as the text has them.
#[tactic(auto, using(crate::proofs::Cuts::cut_short, crate::proofs::Cuts::cut_none))]
fn cut(text: &[u8], start: usize, stop: usize) -> &[u8]
    ensures { result.now ≡ slice_range text.now start stop }
{
    let end = stop.min(text.len());
    if start < end { &text[start..end] } else { b"" }
}
