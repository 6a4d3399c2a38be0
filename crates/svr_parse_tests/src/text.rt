// What a text spells, and what a reader answers.

ghost use Rattle.std.specs.Prelude.{◌≤◌, length};

use crate::wanted::Wanted;
use std::alloc::Global;
use svr_lex::lex;
use svr_reader::{ReadFault, lexemes};
use svr_token::Lexeme;

/// What a text of at most a hundred tokens spells; nothing if it is longer, or no text.
pub fn spelled(alloc: Global, text: &[u8]) -> Vec<Lexeme>
    ensures { length result.items ≤ 100 }
{
    if text.len() <= 1000
        && let Ok(tokens) = lex(alloc, text)
        && let Ok(found) = lexemes(alloc, text, &tokens)
        && found.len() <= 100
    {
        found
    } else {
        Vec::new(alloc)
    }
}

/// A tree that can be told.
pub trait Told {
    /// Tells it, with its height and the number of tokens left behind it.
    fn told(&self, wanted: Wanted, height: usize, left: usize) -> Wanted;
}

/// Whether just the wanted text tells the tree or the fault. Each tree is let go here, whatever it is of, so that no other function has to.
pub fn is_told<T: Told + Drop>(
    found: Result<(T, usize), ReadFault>,
    left: usize,
    wanted: &'static [u8],
) -> bool {
    let begun = Wanted::new(wanted);
    let told = match &found {
        Ok((tree, height)) => tree.told(begun, *height, left),
        Err(fault) => begun.fault(*fault),
    };
    told.is_met()
}

/// The height of a tree, or the fault.
pub fn height_of<T: Drop>(found: Result<(T, usize), ReadFault>) -> Result<usize, ReadFault> {
    match &found {
        Ok((_, height)) => Ok(*height),
        Err(fault) => Err(*fault),
    }
}
