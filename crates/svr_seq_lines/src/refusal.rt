// Why a text is refused.

ghost use Rattle.std.specs.Prelude.{◌≡◌, ◌≤◌, IfOk, IfErr, length};
ghost use Rattle.svr_limits.specs.declared.limit.TheConstants.{TEXT_LIMIT};
ghost use Rattle.svr_token.specs.Tokens.{IsTokenized};
ghost use Rattle.svr_lex.specs.Lexing.{IsLexicalFaultOf};
ghost use Rattle.svr_refusal.specs.Numbers.{number_of};
ghost use Rattle.svr_refusal.specs.Place as spec;
ghost use Rattle.svr_seq_made.specs.Reading as reading;
ghost use Rattle.svr_seq_lines.specs.Sequence.{Refuses};

use crate::end::{End, Stop};
use svr_lex::LexFault;
use svr_refusal::{Refusal, place_of, token_start};
use svr_seq_made::SeqFault;
use svr_token::Token;

/// A refusal at the byte of this number, counted from 0.
fn at_byte(text: &[u8], at: u32, why: Refusal) -> End
    requires { length text.now ≤ TEXT_LIMIT }
    ensures { result ≡ End.Refused (number_of why) (spec.place_of text.now at) }
{
    End::Refused {
        number: why.number(),
        place: place_of(text, at as usize),
    }
}

/// A refusal at the token of this number.
fn at_token(text: &[u8], tokens: &[Token], token: u32, why: Refusal) -> End
    requires { length text.now ≤ TEXT_LIMIT }
    ensures { result ≡ End.Refused (number_of why) (spec.place_of text.now (spec.token_start text.now tokens.now token)) }
{
    End::Refused {
        number: why.number(),
        place: place_of(text, token_start(text, tokens, token)),
    }
}

/// The refusal of a text with a lexical fault.
pub(crate) fn lexical(text: &[u8], fault: LexFault) -> Result<End, Stop>
    requires small { length text.now ≤ TEXT_LIMIT }
    requires fault { IsLexicalFaultOf text.now fault }
    ensures refused { IfOk result (λ end. Refuses text.now end) }
    ensures memory { IfErr result (λ why. why ≡ Stop.NoMemory) }
{
    match fault {
        LexFault::BadByte { at } => Ok(at_byte(text, at, Refusal::BadByte)),
        LexFault::OpenComment { at } => Ok(at_byte(text, at, Refusal::OpenComment)),
        LexFault::BadLiteral { at } => Ok(at_byte(text, at, Refusal::BadLiteral)),
        LexFault::LiteralTooWide { at } => Ok(at_byte(text, at, Refusal::LiteralTooWide)),
        LexFault::NoMemory => Err(Stop::NoMemory),
    }
}

/// The refusal of a text whose tokens write no `randsequence`, or one that is refused.
pub(crate) fn of_tokens(text: &[u8], tokens: &[Token], fault: SeqFault) -> Result<End, Stop>
    requires small { length text.now ≤ TEXT_LIMIT }
    requires tokens { IsTokenized text.now tokens.now }
    requires fault { reading.IsRefused text.now tokens.now fault }
    ensures refused { IfOk result (λ end. Refuses text.now end) }
    ensures memory { IfErr result (λ why. why ≡ Stop.NoMemory) }
{
    match fault {
        SeqFault::Refused { why, token } => Ok(at_token(text, tokens, token, why)),
        SeqFault::NoMemory => Err(Stop::NoMemory),
    }
}
