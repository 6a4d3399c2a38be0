// The cover groups that a text begins with.

ghost use Rattle.std.specs.Prelude.{◌≤◌, ◌<◌, ◌^◌, length, IfOk, IfErr};
ghost use Rattle.std.specs.List.{All};
ghost use Rattle.svr_limits.specs.declared.limit.TheConstants.{TEXT_LIMIT};
ghost use Rattle.svr_token.specs.declared.lexeme.Lexeme.{Lexeme as LexemeType};
ghost use Rattle.svr_token.specs.Tokens.{IsTokenized, IsTokenOf};
ghost use Rattle.svr_lex.specs.Lexing.{IsLexicalFaultOf};
ghost use Rattle.svr_coverage.specs.Front.{BeginsWith, HasNoFront};

use crate::fault::{CoverageFault, at_byte, at_token};
use std::alloc::Global;
use svr_cover_text::{GroupsFault, GroupsText, read};
use svr_lex::{LexFault, lex};
use svr_refusal::Refusal;
use svr_token::Token;

/// The tokens of a text, and the cover groups that they begin with.
#[derive(Drop)]
pub struct Front {
    pub tokens: Vec<Token>,
    pub groups: GroupsText,
}

/// The refusal of a text with a lexical fault.
fn lexical(text: &[u8], fault: LexFault) -> CoverageFault
    requires small { length text.now ≤ TEXT_LIMIT }
    requires fault { IsLexicalFaultOf text.now fault }
    ensures { HasNoFront text.now result }
{
    match fault {
        LexFault::BadByte { at } => at_byte(text, at, Refusal::BadByte),
        LexFault::OpenComment { at } => at_byte(text, at, Refusal::OpenComment),
        LexFault::BadLiteral { at } => at_byte(text, at, Refusal::BadLiteral),
        LexFault::LiteralTooWide { at } => at_byte(text, at, Refusal::LiteralTooWide),
        LexFault::NoMemory => CoverageFault::NoMemory,
    }
}

/// The groups that tokens begin with.
fn groups_of(alloc: Global, text: &[u8], tokens: &[Token]) -> Result<GroupsText, CoverageFault>
    requires small { length text.now ≤ TEXT_LIMIT }
    requires spelled { All (λ t. (l : LexemeType) × IsTokenOf text.now t l) tokens.now }
    requires few { length tokens.now < 2 ^ 32 }
    requires tokens { IsTokenized text.now tokens.now }
    ensures groups { IfOk result (λ g. BeginsWith text.now tokens.now g) }
    ensures fault { IfErr result (λ e. HasNoFront text.now e) }
{
    match read(alloc, text, tokens) {
        Ok(groups) => Ok(groups),
        Err(GroupsFault::Unexpected { token }) => {
            Err(at_token(text, tokens, token, Refusal::NoGroups.number()))
        }
        Err(GroupsFault::NoMemory) => Err(CoverageFault::NoMemory),
    }
}

/// The groups that tokens begin with, beside them.
fn with_groups(alloc: Global, text: &[u8], tokens: Vec<Token>) -> Result<Front, CoverageFault>
    requires small { length text.now ≤ TEXT_LIMIT }
    requires spelled { All (λ t. (l : LexemeType) × IsTokenOf text.now t l) tokens.items }
    requires few { length tokens.items < 2 ^ 32 }
    requires tokens { IsTokenized text.now tokens.items }
    ensures front { IfOk result (λ f. BeginsWith text.now f.tokens.items f.groups) }
    ensures fault { IfErr result (λ e. HasNoFront text.now e) }
{
    match groups_of(alloc, text, &tokens) {
        Ok(groups) => Ok(Front { tokens, groups }),
        Err(fault) => Err(fault),
    }
}

/// The cover groups that a text of at most 4,194,304 bytes begins with.
///
/// Errors: its first lexical fault, from 1 to 4; or 31, the first token with which its tokens begin no groups.
pub fn read_front(alloc: Global, text: &[u8]) -> Result<Front, CoverageFault>
    requires { length text.now ≤ TEXT_LIMIT }
    ensures front { IfOk result (λ f. BeginsWith text.now f.tokens.items f.groups) }
    ensures fault { IfErr result (λ e. HasNoFront text.now e) }
{
    match lex(alloc, text) {
        Ok(tokens) => with_groups(alloc, text, tokens),
        Err(fault) => Err(lexical(text, fault)),
    }
}
