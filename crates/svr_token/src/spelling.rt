// What bytes spell.
ghost use Rattle.std.specs.Prelude.{◌≡◌, ◌↔◌, ℕ, Bool, true, IsTrue, IfSome};
ghost use Rattle.svr_token.specs.Lexemes.{IsName, IsLexeme, Spells};
ghost use Rattle.svr_token.specs.Tokens.{IsTokenOf};
ghost use Rattle.svr_token.specs.declared.lexeme.Lexeme.{Lexeme as LexemeType};

use crate::bytes::{ByteClass, may_start_name, split_while};
use crate::lexeme::{Lexeme, NameKind};
use crate::literal::{FrontLiteral, front_literal};
use crate::tables::{mark, system_name, word};
use crate::token::{Kind, Token};

/// The lexeme that a token of a text spells; none where the token does not lie in the text, or spells none.
pub fn lexeme_of(text: &[u8], token: Token) -> Option<Lexeme>
    ensures found { IfSome result (λ l. IsTokenOf text.now token l) }
    ensures exact { (l : LexemeType) → IsTokenOf text.now token l → result ≡ Some l }
{
    lexeme_from(text.get(token.start as usize..token.stop as usize)?)
}

/// The lexeme that these bytes are, all of them; none where they are none.
pub fn lexeme_from(bytes: &[u8]) -> Option<Lexeme>
    ensures found { IfSome result (λ l. Spells l bytes.now) }
    ensures exact { (l : LexemeType) → Spells l bytes.now → result ≡ Some l }
{
    if is_name(bytes) {
        return Some(name(bytes));
    }
    if let Some(found) = mark(bytes) {
        return Some(found);
    }
    match system_name(bytes) {
        Some(found) => Some(found),
        None => literal(bytes),
    }
}

/// Whether the bytes are a name or a reserved word.
pub fn is_name(bytes: &[u8]) -> bool
    ensures yes { IsTrue result → IsName bytes.now }
    ensures no { IsName bytes.now → IsTrue result }
{
    let Some((first, more)) = bytes.split_first() else {
        return false;
    };
    may_start_name(*first) && split_while(more, ByteClass::Name).1.is_empty()
}

/// Whether the bytes are a mark.
pub fn is_mark(bytes: &[u8]) -> bool
    ensures yes { IsTrue result → IsLexeme Kind.Mark bytes.now }
    ensures no { IsLexeme Kind.Mark bytes.now → IsTrue result }
{
    mark(bytes).is_some()
}

/// Whether the bytes are a system name.
pub fn is_system_name(bytes: &[u8]) -> bool
    ensures yes { IsTrue result → IsLexeme Kind.System bytes.now }
    ensures no { IsLexeme Kind.System bytes.now → IsTrue result }
{
    system_name(bytes).is_some()
}

fn name(bytes: &[u8]) -> Lexeme
    requires { IsName bytes.now }
    ensures found { Spells result bytes.now }
    ensures exact { (l : LexemeType) → Spells l bytes.now → result ≡ l }
{
    word(bytes).unwrap_or(Lexeme::Name(NameKind::Plain))
}

fn literal(bytes: &[u8]) -> Option<Lexeme>
    ensures found { IfSome result (λ l. Spells l bytes.now) }
    ensures exact { (v w : ℕ) (s : Bool) → Spells (Lexeme.Literal v w s) bytes.now → result ≡ Some (Lexeme.Literal v w s) }
{
    let FrontLiteral::Found { literal, rest } = front_literal(bytes) else {
        return None;
    };
    if rest.is_empty() {
        literal.lexeme().ok()
    } else {
        None
    }
}
