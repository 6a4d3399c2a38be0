// Fixed words and marks.

ghost use Rattle.std.specs.Prelude.{◌≡◌};
ghost use Rattle.svr_reader.specs.Steps as spec;

use svr_token::{Lexeme, Mark, Word};

/// A reserved word or a mark.
#[derive(Clone, Copy, PartialEq, Eq)]
pub enum Fixed {
    Word(Word),
    Mark(Mark),
}

/// Whether the token spells the word or mark. None is the end of the text.
pub fn is_fixed(fixed: Fixed, lexeme: Option<Lexeme>) -> bool
    ensures { result ≡ spec.is_fixed fixed lexeme }
{
    match (fixed, lexeme) {
        (Fixed::Word(word), Some(Lexeme::Word(found))) => same_word(found, word),
        (Fixed::Mark(mark), Some(Lexeme::Mark(found))) => same_mark(found, mark),
        _ => false,
    }
}

#[tactic(auto, unfolding(crate::specs::Steps::same_word))]
fn same_word(a: Word, b: Word) -> bool
    ensures { result ≡ spec.same_word a b }
{
    a == b
}

#[tactic(auto, unfolding(crate::specs::Steps::same_mark))]
fn same_mark(a: Mark, b: Mark) -> bool
    ensures { result ≡ spec.same_mark a b }
{
    a == b
}
