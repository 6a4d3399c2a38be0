// Why a text is no script.
ghost use Rattle.std.specs.Prelude.{◌≡◌, ◌≤◌, length, IfOk};
ghost use Rattle.svr_token.specs.Tokens.{IsTokenized};
ghost use Rattle.svr_lex.specs.Lexing.{IsLexicalFaultOf};
ghost use Rattle.svr_parse.specs.Parse.{IsFaultOf};
ghost use Rattle.svr_refusal.specs.Place as place;
ghost use Rattle.svr_limits.specs.declared.limit.TheConstants.{TEXT_LIMIT};
ghost use Rattle.svr_refused.specs.Texts.{IsRefused};
ghost use Rattle.svr_status.specs.Lines as spec;

use std::alloc::{AllocError, Global};
use svr_lex::LexFault;
use svr_parse::ParseFault;
use svr_refusal::{Refusal, place_of, token_start};
use svr_status::refused_at;
use svr_token::Token;

/// A refusal at the byte of this number.
fn at_byte(alloc: Global, text: &[u8], at: usize, why: Refusal) -> Result<Vec<u8>, AllocError>
    requires { length text.now ≤ TEXT_LIMIT }
    ensures { IfOk result (λ v. v.items ≡ spec.refused_at (place.place_of text.now at) why) }
{
    refused_at(alloc, place_of(text, at), why)
}

/// The refusal of a text with a lexical fault.
pub fn lexical(alloc: Global, text: &[u8], fault: LexFault) -> Result<Vec<u8>, AllocError>
    requires small { length text.now ≤ TEXT_LIMIT }
    requires fault { IsLexicalFaultOf text.now fault }
    ensures { IfOk result (λ v. IsRefused text.now v.items) }
{
    match fault {
        LexFault::BadByte { at } => at_byte(alloc, text, at as usize, Refusal::BadByte),
        LexFault::OpenComment { at } => at_byte(alloc, text, at as usize, Refusal::OpenComment),
        LexFault::BadLiteral { at } => at_byte(alloc, text, at as usize, Refusal::BadLiteral),
        LexFault::LiteralTooWide { at } => at_byte(
            alloc,
            text,
            at as usize,
            Refusal::LiteralTooWide,
        ),
        LexFault::NoMemory => Err(AllocError),
    }
}

/// The refusal of a text whose tokens are no script.
pub fn syntactic(
    alloc: Global,
    text: &[u8],
    tokens: &[Token],
    fault: ParseFault,
) -> Result<Vec<u8>, AllocError>
    requires small { length text.now ≤ TEXT_LIMIT }
    requires tokens { IsTokenized text.now tokens.now }
    requires fault { IsFaultOf text.now tokens.now fault }
    ensures { IfOk result (λ v. IsRefused text.now v.items) }
{
    match fault {
        ParseFault::Unexpected { token } => {
            at_byte(
                alloc,
                text,
                token_start(text, tokens, token),
                Refusal::Unexpected,
            )
        }
        ParseFault::TooDeep { token } => at_byte(
            alloc,
            text,
            token_start(text, tokens, token),
            Refusal::TooDeep,
        ),
        ParseFault::NoMemory => Err(AllocError),
    }
}
