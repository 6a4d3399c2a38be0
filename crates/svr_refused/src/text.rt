// The design of a text, or its refusal.
ghost use Rattle.std.specs.Prelude.{◌≤◌, ◌<◌, ◌^◌, length, IfOk};
ghost use Rattle.svr_token.specs.Tokens.{IsTokenized};
ghost use Rattle.svr_tree.specs.ScriptTree.{script_tree};
ghost use Rattle.svr_parse.specs.Parse.{IsTreeOf};
ghost use Rattle.svr_limits.specs.declared.limit.TheConstants.{TEXT_LIMIT};
ghost use Rattle.svr_refused.specs.Comes.{ComesTo};

use crate::fault::{lexical, syntactic};
use std::alloc::{AllocError, Global};
use svr_elab_fault::ElabFault;
use svr_elaborate::elaborate;
use svr_lex::lex;
use svr_parse::parse;
use svr_refusal::{place_of, token_start};
use svr_status::refused_as;
use svr_token::Token;
use svr_tree::Script;
use svr_typed::Design;

/// What a text comes to: the design of its script, or the line with which it is refused.
#[derive(Drop)]
pub enum Reading {
    Accepted(Design),
    Refused(Vec<u8>),
}

/// What a script that was read comes to: its first refusal is told by its place and number.
fn elaborated(
    alloc: Global,
    text: &[u8],
    tokens: &[Token],
    script: &Script,
) -> Result<Reading, AllocError>
    requires small { length text.now ≤ TEXT_LIMIT }
    requires few { length tokens.now < 2 ^ 32 }
    requires tokens { IsTokenized text.now tokens.now }
    requires tree { IsTreeOf text.now tokens.now (script_tree script.now) }
    ensures { IfOk result (λ r. ComesTo text.now r) }
{
    match elaborate(alloc, text, tokens, script) {
        Ok(design) => Ok(Reading::Accepted(design)),
        Err(ElabFault::Refused { number, token }) => {
            let place = place_of(text, token_start(text, tokens, token));
            Ok(Reading::Refused(refused_as(alloc, place, number)?))
        }
        Err(ElabFault::NoMemory) => Err(AllocError),
    }
}

/// What a text of at most 4,194,304 bytes comes to.
pub fn read(alloc: Global, text: &[u8]) -> Result<Reading, AllocError>
    requires { length text.now ≤ TEXT_LIMIT }
    ensures { IfOk result (λ r. ComesTo text.now r) }
{
    let tokens = match lex(alloc, text) {
        Ok(tokens) => tokens,
        Err(fault) => return Ok(Reading::Refused(lexical(alloc, text, fault)?)),
    };
    match parse(alloc, text, &tokens) {
        Ok(script) => {
            let reading = elaborated(alloc, text, &tokens, &script);
            drop(script);
            reading
        }
        Err(fault) => Ok(Reading::Refused(syntactic(alloc, text, &tokens, fault)?)),
    }
}
