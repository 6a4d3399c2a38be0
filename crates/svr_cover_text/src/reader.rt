// Cover groups from the tokens of a text.

ghost use Rattle.std.specs.Prelude.{◌≡◌, ◌<◌, ◌≤◌, ◌^◌, List, length, IfOk, IfErr};
ghost use Rattle.std.specs.List.{All};
ghost use Rattle.svr_token.specs.declared.lexeme.Lexeme.{Lexeme as LexemeType};
ghost use Rattle.svr_token.specs.Tokens.{IsTokenOf};
ghost use Rattle.svr_cover_text.specs.declared.word.Word.{Word as WordType};
ghost use Rattle.svr_cover_text.specs.Words.{AreWords};
ghost use Rattle.svr_cover_text.specs.Tokens.{WriteText, HaveFault, AnswersGroups, AnswersStops};
ghost use Rattle.svr_cover_text.specs.Machine.{after, stop};

use crate::fault::GroupsFault;
use crate::reading::Reading;
use crate::text::GroupsText;
use crate::word::word_at;
use std::alloc::{AllocError, Global};
use svr_token::Token;

/// Goes on as long as each token may stand where it does. Tells the first that may not; the end of the text may stand nowhere.
fn run_through(
    alloc: Global,
    reading: &mut Reading,
    text: &[u8],
    tokens: &[Token],
) -> Result<u32, AllocError>
    requires { length tokens.now < 2 ^ 32 }
    ensures stops { (ws : List WordType) → AreWords text.now 0 tokens.now ws → IfOk result (λ n. after reading.old 0 ws ≡ stop reading.new n) }
    ensures within { IfOk result (λ n. n ≤ length tokens.now) }
{
    let mut left = tokens;
    let mut at: u32 = 0;
    'tokens: loop {
        match left.split_first() {
            None => return Ok(at),
            Some((token, others)) => {
                let moved = reading.take(alloc, word_at(text, *token, at))?;
                if !moved {
                    return Ok(at);
                }
                left = others;
                at += 1;
            }
        }
    }
}

/// The cover groups at the beginning of a text, by its tokens (IEEE 1800-2017, 19.3, 19.5 and 19.6). The conditions are what the lexer says of its tokens.
///
///     groups = { group }
///     group  = "covergroup" NAME "with" "function" "sample" "(" NAME NAME ")" ";" { point | cross } "endgroup"
///     point  = NAME ":" "coverpoint" NAME "." NAME "{" bins { bins } "}"
///     bins   = "bins" NAME [ "[" "]" ] "=" "{" r { "," r } "}" ";"
///     cross  = NAME ":" "cross" NAME "," NAME { "," NAME } ";"
///     r      = num | "[" num ":" num "]"
///     num    = [ "-" ] DEC
///
/// A NAME is a plain name other than `endgroup`, a DEC a literal of decimal digits. The groups end before the first token behind one of them that is not `covergroup`, or before the first token of the text.
///
/// A fault is at the first token with which the tokens so far begin no groups.
pub fn read(alloc: Global, text: &[u8], tokens: &[Token]) -> Result<GroupsText, GroupsFault>
    requires spelled { All (λ t. (l : LexemeType) × IsTokenOf text.now t l) tokens.now }
    requires few { length tokens.now < 2 ^ 32 }
    ensures groups { IfOk result (λ s. WriteText text.now tokens.now s) }
    ensures within { IfOk result (λ s. s.used ≤ length tokens.now) }
    ensures fault { IfErr result (λ e. HaveFault text.now tokens.now e) }

    // Want of memory aside, tokens that begin with groups are answered by them, and any others by their fault.
    ensures only_groups { AnswersGroups text.now tokens.now result }
    ensures only_fault { AnswersStops text.now tokens.now result }
{
    let mut reading = Reading::new(alloc);
    match run_through(alloc, &mut reading, text, tokens) {
        Ok(at) => reading.told(at),
        Err(_) => Err(GroupsFault::NoMemory),
    }
}
