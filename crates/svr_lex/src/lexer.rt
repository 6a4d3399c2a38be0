// A text as tokens.
ghost use Rattle.std.specs.Prelude.{◌≡◌, ◌⊎◌, ◌≤◌, ℕ, List, length, IfOk, IfErr, MatchResult, All};
ghost use Rattle.svr_limits.specs.declared.limit.TheConstants.{TEXT_LIMIT};
ghost use Rattle.svr_token.specs.Faults.{Fault};
ghost use Rattle.svr_token.specs.Tokens.{IsTokenized, IsFirstFault, IsTokenOf};
ghost use Rattle.svr_token.specs.declared.token.Token.{Token as TokenType};
ghost use Rattle.svr_token.specs.declared.lexeme.Lexeme.{Lexeme as LexemeType};
ghost use Rattle.svr_lex.specs.Lexing.{fault_at, IsLexicalFaultOf};

use crate::fault::LexFault;
use crate::front::{Front, front_of};
use std::alloc::Global;
use svr_token::Token;

/// The tokens of a text of at most `TEXT_LIMIT` bytes: its lexemes in order, each the longest that is possible at its place, between white space and comments (IEEE 1800-2017, 5.2 to 5.7).
///
/// A fault is the first in the order of the text.
pub fn lex(alloc: Global, text: &[u8]) -> Result<Vec<Token>, LexFault>
    requires { length text.now ≤ TEXT_LIMIT }
    ensures tokens { IfOk result (λ v. IsTokenized text.now v.items) }
    ensures spelled { IfOk result (λ v. All (λ t. (l : LexemeType) × IsTokenOf text.now t l) v.items) }
    ensures few { IfOk result (λ v. length v.items ≤ length text.now) }
    ensures fault { IfErr result (λ e. IsLexicalFaultOf text.now e) }

    // Want of memory aside, a text that has tokens is answered by them, and any other by its first fault.
    ensures only_tokens { (ts : List TokenType) → IsTokenized text.now ts → MatchResult result (λ v. v.items ≡ ts) (λ e. e ≡ LexFault.NoMemory) }
    ensures only_fault { (f : Fault) (at : ℕ) → IsFirstFault text.now f at → MatchResult result (λ v. ⊥) (λ e. (e ≡ fault_at f at) ⊎ (e ≡ LexFault.NoMemory)) }
{
    let mut tokens = Vec::new(alloc);
    let mut left = text;
    let mut at: u32 = 0;
    'pieces: loop {
        match front_of(left) {
            Front::End => return Ok(tokens),
            Front::Gap { gap, rest } => {
                at += gap.len() as u32;
                left = rest;
            }
            Front::Lexeme { kind, lexeme, rest } => {
                let stop = at + lexeme.len() as u32;
                if tokens
                    .push(Token {
                        kind,
                        start: at,
                        stop,
                    })
                    .is_err()
                {
                    return Err(LexFault::NoMemory);
                }
                at = stop;
                left = rest;
            }
            Front::Fault(flaw) => return Err(flaw.at(at)),
        }
    }
}
