// What the tokens of a text spell.

ghost use Rattle.std.specs.Prelude.{◌≡◌, IfOk};
ghost use Rattle.std.specs.List.{All};
ghost use Rattle.svr_token.specs.declared.Lexeme.{Lexeme as LexemeType};
ghost use Rattle.svr_token.specs.Tokens.{IsTokenOf};
ghost use Rattle.svr_reader.specs.Spelled.{AreSpelled, SpellNoOther};

use std::alloc::{AllocError, Global};
use svr_token::{Lexeme, Token, lexeme_of};

/// What each token of a text spells. The condition is what the lexer says of its tokens.
pub fn lexemes(alloc: Global, text: &[u8], tokens: &[Token]) -> Result<Vec<Lexeme>, AllocError>
    requires { All (λ t. (l : LexemeType) × IsTokenOf text.now t l) tokens.now }
    ensures spelled { IfOk result (λ ls. AreSpelled text.now tokens.now ls.items) }
    ensures exact { IfOk result (λ ls. SpellNoOther text.now tokens.now ls.items) }
{
    let mut found = Vec::new(alloc);
    for token in tokens {
        found.push(spelled(text, *token))?;
    }
    Ok(found)
}

/// What a token spells that does spell a lexeme.
fn spelled(text: &[u8], token: Token) -> Lexeme
    requires { (l : LexemeType) × IsTokenOf text.now token l }
    ensures is { IsTokenOf text.now token result }
    ensures exact { (l : LexemeType) → IsTokenOf text.now token l → l ≡ result }
{
    match lexeme_of(text, token) {
        Some(lexeme) => lexeme,
        None => unreachable!(),
    }
}
