// What elaboration says of a text.

ghost use Rattle.std.specs.Prelude.{◌≡◌, ◌≤◌, ◌<◌, ◌^◌, length};
ghost use Rattle.std.specs.List.{All};
ghost use Rattle.svr_limits.specs.declared.limit.TheConstants.{TEXT_LIMIT};
ghost use Rattle.svr_token.specs.declared.Lexeme.{Lexeme as LexemeType};
ghost use Rattle.svr_token.specs.Tokens.{IsTokenOf};

use std::alloc::Global;
use svr_elab::elab_script;
use svr_elab_fault::ElabFault;
use svr_lex::lex;
use svr_parse::parse;
use svr_refusal::{Place, place_of, token_start};
use svr_token::Token;

/// A script has a design, or is refused under a number at a place. Nothing: it is no script, or memory was wanting.
#[derive(Clone, Copy)]
enum Verdict {
    Accepted,
    Refused(u8, Place),
    Nothing,
}

/// Lets go what was held, in the place of a function that knows what it is.
fn let_go<T: Drop>(_held: T) {}

fn told<T: Drop>(text: &[u8], tokens: &[Token], found: Result<Option<T>, ElabFault>) -> Verdict
    requires { length text.now ≤ TEXT_LIMIT }
{
    match &found {
        Ok(Some(_)) => Verdict::Accepted,
        Err(ElabFault::Refused { number, token }) => {
            Verdict::Refused(*number, place_of(text, token_start(text, tokens, *token)))
        }
        _ => Verdict::Nothing,
    }
}

#[tactic(auto, using(crate::proofs::Read::read_from))]
fn said(alloc: Global, text: &[u8], tokens: &[Token]) -> Verdict
    requires text { length text.now ≤ TEXT_LIMIT }
    requires spelled { All (λ t. (l : LexemeType) × IsTokenOf text.now t l) tokens.now }
    requires few { length tokens.now < 2 ^ 32 }
{
    let found = parse(alloc, text, tokens);
    let said = match &found {
        Ok(script) => told(text, tokens, elab_script(alloc, text, tokens, script)),
        Err(_) => Verdict::Nothing,
    };
    let_go(found);
    said
}

fn says(alloc: Global, text: &[u8]) -> Verdict {
    if text.len() > 1_000_000 {
        return Verdict::Nothing;
    }
    match lex(alloc, text) {
        Ok(tokens) => said(alloc, text, &tokens),
        Err(_) => Verdict::Nothing,
    }
}

/// Whether a text is refused under this number, at this line and column.
pub fn is_refused(alloc: Global, text: &[u8], number: u8, line: u32, column: u32) -> bool {
    match says(alloc, text) {
        Verdict::Refused(found, place) => {
            found == number && place.line == line && place.column == column
        }
        _ => false,
    }
}

/// Whether a text has a design.
pub fn is_accepted(alloc: Global, text: &[u8]) -> bool {
    matches!(says(alloc, text), Verdict::Accepted)
}
