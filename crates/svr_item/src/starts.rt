// What an item begins with.

ghost use Rattle.std.specs.Prelude.{◌≡◌};
ghost use Rattle.svr_item.specs.ItemRules as spec;

use svr_expr::starts_expr;
use svr_token::{Lexeme, Word};

/// Whether an item begins with the token.
pub(crate) fn starts_item(lexeme: Option<Lexeme>) -> bool
    ensures { result ≡ spec.item_starts lexeme }
{
    match lexeme {
        Some(Lexeme::Word(Word::Soft)) => true,
        Some(Lexeme::Word(Word::Unique)) => true,
        Some(Lexeme::Word(Word::If)) => true,
        Some(Lexeme::Word(Word::Foreach)) => true,
        Some(Lexeme::Word(Word::Disable)) => true,
        other => starts_expr(other),
    }
}

/// Whether an item that stands directly in a block begins with the token.
pub(crate) fn starts_block_item(lexeme: Option<Lexeme>) -> bool
    ensures { result ≡ spec.block_starts lexeme }
{
    match lexeme {
        Some(Lexeme::Word(Word::Solve)) => true,
        other => starts_item(other),
    }
}
