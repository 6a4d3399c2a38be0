// A script from its tokens.

ghost use Rattle.std.specs.Prelude.{◌≡◌, ◌⊎◌, ◌<◌, ◌^◌, length, IfOk, IfErr, MatchResult};
ghost use Rattle.std.specs.List.{All};
ghost use Rattle.svr_token.specs.declared.Lexeme.{Lexeme as LexemeType};
ghost use Rattle.svr_token.specs.Tokens.{IsTokenOf};
ghost use Rattle.svr_tree.specs.ScriptTree.{ScriptTree, script_tree};
ghost use Rattle.svr_parse.specs.declared.fault.ParseFault.{ParseFault as ParseFaultType};
ghost use Rattle.svr_parse.specs.Parse.{IsTreeOf, IsFaultOf, IsPlaceOf};

use crate::fault::ParseFault;
use crate::reader::Reader;
use std::alloc::Global;
use svr_limits::HEIGHT_LIMIT;
use svr_reader::{Cursor, ReadFault, lexemes};
use svr_token::Token;
use svr_tree::Script;

/// The script that the tokens of a text spell, within `HEIGHT_LIMIT`. The conditions are what the lexer says of its tokens.
///
/// A fault is at the first token at which no such script goes on.
pub fn parse(alloc: Global, text: &[u8], tokens: &[Token]) -> Result<Script, ParseFault>
    requires spelled { All (λ t. (l : LexemeType) × IsTokenOf text.now t l) tokens.now }
    requires few { length tokens.now < 2 ^ 32 }
    ensures tree { IfOk result (λ s. IsTreeOf text.now tokens.now (script_tree s)) }
    ensures fault { IfErr result (λ e. IsFaultOf text.now tokens.now e) }

    // Want of memory aside, tokens that have a tree are answered by it, and any others by their fault.
    ensures only_tree { (tree : ScriptTree) → IsTreeOf text.now tokens.now tree → MatchResult result (λ s. script_tree s ≡ tree) (λ e. e ≡ ParseFault.NoMemory) }
    ensures only_fault { (error : ParseFaultType) → IsPlaceOf text.now tokens.now error → MatchResult result (λ s. ⊥) (λ e. (e ≡ error) ⊎ (e ≡ ParseFault.NoMemory)) }
{
    let lexemes = lexemes(alloc, text, tokens)?;
    let mut cursor = Cursor::new(&lexemes);
    let reader = Reader {
        alloc,
        room: HEIGHT_LIMIT,
    };
    let count = tokens.len();
    match reader.whole(&mut cursor) {
        Ok(script) => Ok(script),
        Err(ReadFault::Unexpected(left)) => Err(ParseFault::Unexpected {
            token: (count - left) as u32,
        }),
        Err(ReadFault::TooDeep(left)) => Err(ParseFault::TooDeep {
            token: (count - left) as u32,
        }),
        Err(ReadFault::NoMemory) => Err(ParseFault::NoMemory),
    }
}
