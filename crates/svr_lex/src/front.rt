// What a text begins with.
ghost use Rattle.std.specs.Prelude.{◌≡◌, ◌≢◌, ℕ, List, ◌∷◌, ◌++◌, false, IsTrue, IfSome, IfNone, length, codes};
ghost use Rattle.svr_token.specs.Bytes.{is_name_byte, is_name_start, Stops};
ghost use Rattle.svr_token.specs.Literals.{HasLiteral, literal_seen};
ghost use Rattle.svr_token.specs.Spellings.{mark_text};
ghost use Rattle.svr_token.specs.declared.lexeme.Mark.{Mark};
ghost use Rattle.svr_lex.specs.TextFronts.{IsTextFront, StartsOther, MarkOrNothing, HasMark, BeginsWithMark, EndsComment};

use crate::fault::Flaw;
use svr_token::{
    ByteClass, FrontLiteral, Kind, Literal, LiteralFault, front_literal, is_blank_byte, is_mark,
    is_system_name, may_start_name, split_while,
};

/// What a text begins with, and what follows it.
#[derive(Clone, Copy)]
pub(crate) enum Front<'a> {
    /// Nothing: the text is empty.
    End,
    Gap {
        gap: &'a [u8],
        rest: &'a [u8],
    },
    Lexeme {
        kind: Kind,
        lexeme: &'a [u8],
        rest: &'a [u8],
    },
    Fault(Flaw),
}

pub(crate) fn front_of(text: &[u8]) -> Front<'_>
    ensures { IsTextFront text.now result }
{
    let Some((first, more)) = text.split_first() else {
        return Front::End;
    };
    if is_blank_byte(*first) {
        let (gap, rest) = text.split_at(1);
        return Front::Gap { gap, rest };
    }
    if may_start_name(*first) {
        let (lexeme, rest) = split_while(text, ByteClass::Name);
        return Front::Lexeme {
            kind: Kind::Name,
            lexeme,
            rest,
        };
    }
    match *first {
        b'/' => slash(text, more),
        b'$' => dollar(text, more),
        _ => literal_or_mark(text),
    }
}

// A comment, or a mark.
fn slash<'a>(text: &'a [u8], more: &'a [u8]) -> Front<'a>
    requires { text.now ≡ 47 ∷ more.now }
    ensures { IsTextFront text.now result }
{
    if let Some(behind) = more.strip_prefix(b"/") {
        let (body, _) = split_while(behind, ByteClass::WithinLine);
        let (gap, rest) = text.split_at(2 + body.len());
        return Front::Gap { gap, rest };
    }
    let Some(behind) = more.strip_prefix(b"*") else {
        return mark(text);
    };
    match comment_body(behind) {
        Some(body) => {
            let (gap, rest) = text.split_at(4 + body.len());
            Front::Gap { gap, rest }
        }
        None => Front::Fault(Flaw::OpenComment),
    }
}

// A system name, or the mark `$`.
fn dollar<'a>(text: &'a [u8], more: &'a [u8]) -> Front<'a>
    requires { text.now ≡ 36 ∷ more.now }
    ensures { IsTextFront text.now result }
{
    if !starts_name(more) {
        return mark(text);
    }
    let (name, _) = split_while(more, ByteClass::Name);
    let (lexeme, rest) = text.split_at(1 + name.len());
    if is_system_name(lexeme) {
        Front::Lexeme {
            kind: Kind::System,
            lexeme,
            rest,
        }
    } else {
        Front::Fault(Flaw::BadByte)
    }
}

// A literal, or a mark.
fn literal_or_mark(text: &[u8]) -> Front<'_>
    requires { StartsOther text.now }
    ensures { IsTextFront text.now result }
{
    match front_literal(text) {
        FrontLiteral::Absent => mark(text),
        FrontLiteral::LacksDigit => Front::Fault(Flaw::BadLiteral),
        FrontLiteral::Found { literal, rest } => literal_within(text, literal, rest),
    }
}

fn literal_within<'a>(text: &'a [u8], literal: Literal<'a>, rest: &'a [u8]) -> Front<'a>
    requires starts { StartsOther text.now }
    requires begins { HasLiteral text.now (literal_seen literal) rest.now }
    ensures { IsTextFront text.now result }
{
    if runs_on(rest) {
        return Front::Fault(Flaw::BadLiteral);
    }
    match literal.lexeme() {
        Ok(_) => {
            let (lexeme, rest) = text.split_at(text.len() - rest.len());
            Front::Lexeme {
                kind: Kind::Literal,
                lexeme,
                rest,
            }
        }
        Err(LiteralFault::ZeroSize) => Front::Fault(Flaw::BadLiteral),
        Err(LiteralFault::TooWide) => Front::Fault(Flaw::LiteralTooWide),
    }
}

// Whether the text goes on with a byte of a name.
fn runs_on(text: &[u8]) -> bool
    ensures yes { IsTrue result → Stops is_name_byte text.now → ⊥ }
    ensures no { result ≡ false → Stops is_name_byte text.now }
{
    match text.split_first() {
        Some((first, _)) => ByteClass::Name.contains(*first),
        None => false,
    }
}

fn starts_name(text: &[u8]) -> bool
    ensures yes { IsTrue result → Stops is_name_start text.now → ⊥ }
    ensures no { result ≡ false → Stops is_name_start text.now }
{
    match text.split_first() {
        Some((first, _)) => may_start_name(*first),
        None => false,
    }
}

// What stands before the first `*/`.
fn comment_body(text: &[u8]) -> Option<&[u8]>
    ensures found { IfSome result (λ body. (rest : List ℕ) × EndsComment text.now body.now rest) }
    ensures none { IfNone result ((body more : List ℕ) → text.now ≢ body ++ (codes "*/" ++ more)) }
{
    let mut after_star = false;
    for (i, byte) in text.iter().enumerate() {
        if after_star && *byte == b'/' {
            return Some(&text[..i - 1]);
        }
        after_star = *byte == b'*';
    }
    None
}

// The longest mark, or a byte that begins nothing.
fn mark(text: &[u8]) -> Front<'_>
    requires { MarkOrNothing text.now }
    ensures { IsTextFront text.now result }
{
    match front_mark(text) {
        Some((lexeme, rest)) => Front::Lexeme {
            kind: Kind::Mark,
            lexeme,
            rest,
        },
        None => Front::Fault(Flaw::BadByte),
    }
}

fn front_mark(text: &[u8]) -> Option<(&[u8], &[u8])>
    ensures found { IfSome result (λ p. BeginsWithMark text.now p.0.now p.1.now) }
    ensures none { IfNone result ((mark : Mark) (rest : List ℕ) → text.now ≢ mark_text mark ++ rest) }
{
    if let Some(found) = mark_of_len(text, 3) {
        return Some(found);
    }
    if let Some(found) = mark_of_len(text, 2) {
        return Some(found);
    }
    mark_of_len(text, 1)
}

fn mark_of_len(text: &[u8], len: usize) -> Option<(&[u8], &[u8])>
    ensures found { IfSome result (λ p. HasMark text.now p.0.now p.1.now len) }
    ensures none { IfNone result ((mark : Mark) (rest : List ℕ) → text.now ≡ mark_text mark ++ rest → length (mark_text mark) ≢ len) }
{
    if len > text.len() {
        return None;
    }
    let (front, rest) = text.split_at(len);
    if is_mark(front) {
        Some((front, rest))
    } else {
        None
    }
}
