// Texts of `randsequence` from their tokens.

ghost use Rattle.std.specs.Prelude.{◌≡◌, ◌⊎◌, ◌<◌, ◌^◌, List, ℕ, length, None, Some, Ok, Err, IfOk, IfErr, MatchOption, MatchResult};
ghost use Rattle.std.specs.List.{All};
ghost use Rattle.svr_token.specs.declared.lexeme.Lexeme.{Lexeme as LexemeType};
ghost use Rattle.svr_token.specs.Tokens.{IsTokenOf};
ghost use Rattle.svr_seq_text.specs.declared.word.Word.{Word as WordType};
ghost use Rattle.svr_seq_text.specs.Words.{AreWords};
ghost use Rattle.svr_seq_text.specs.Tree.{SeqTree, text_of};
ghost use Rattle.svr_seq_text.specs.Spelled.{seq_words};
ghost use Rattle.svr_seq_text.specs.Fronts.{IsTextOf, IsFaultOf, IsUnexpected};
ghost use Rattle.svr_seq_text.specs.Machine.{step, after, text_in, IsLeft};
ghost use Rattle.svr_seq_text.specs.declared.word.Word.TheVariants as w;
ghost use Rattle.svr_seq_text.specs.declared.fault.SeqTextFault.TheVariants as fault;

use crate::fault::SeqTextFault;
use crate::reading::Reading;
use crate::text::SeqText;
use crate::word::{Word, word_at};
use std::alloc::{AllocError, Global};
use svr_token::Token;

/// Goes on by the end of the text. Tells its number where it may not stand there.
fn end_of(alloc: Global, reading: &mut Reading, at: u32) -> Result<Option<u32>, AllocError>
    requires { reading.old.depth < usize.MAX }
    ensures { IfOk result (λ stuck. MatchOption stuck (step reading.old w.End ≡ Some reading.new) (λ n. (n ≡ at) × (step reading.old w.End ≡ None))) }
{
    let moved = reading.take(alloc, Word::End)?;
    if moved { Ok(None) } else { Ok(Some(at)) }
}

/// Goes through all tokens and the end of the text. Tells the first that may not stand where it does.
fn run_through(
    alloc: Global,
    reading: &mut Reading,
    text: &[u8],
    tokens: &[Token],
) -> Result<Option<u32>, AllocError>
    requires few { length tokens.now < 2 ^ 32 }
    requires start { reading.old.depth ≡ 0 }
    ensures { (ws : List WordType) → AreWords text.now 0 tokens.now ws → IfOk result (λ stuck. IsLeft (after reading.old 0 ws) stuck reading.new) }
{
    let mut left = tokens;
    let mut at: u32 = 0;
    'tokens: loop {
        match left.split_first() {
            None => return end_of(alloc, reading, at),
            Some((token, others)) => {
                let moved = reading.take(alloc, word_at(text, *token, at))?;
                if !moved {
                    return Ok(Some(at));
                }
                left = others;
                at += 1;
            }
        }
    }
}

/// What is read, unless the reader is stuck at a token.
fn told(stuck: Option<u32>, reading: Reading) -> Result<SeqText, SeqTextFault>
    ensures { MatchOption stuck (result ≡ Ok (text_in reading.made)) (λ n. result ≡ Err (fault.Unexpected n)) }
{
    match stuck {
        None => Ok(reading.into_text()),
        Some(token) => Err(SeqTextFault::Unexpected { token }),
    }
}

/// The text of `randsequence` that the tokens of a text write, from the first to the last (IEEE 1800-2017, 18.16 and 18.17). The conditions are what the lexer says of its tokens.
///
///     seq  = "randsequence" "(" [ NAME ] ")" prod { prod } "endsequence"
///     prod = NAME ":" rule { "|" rule } ";"
///     rule = part { part } [ ":=" DEC ]
///     part = NAME | "repeat" "(" DEC ")" NAME | "{" { act } "}"
///     act  = NAME ";" | "randcase" DEC ":" act { DEC ":" act } "endcase"
///
/// A NAME is a plain name other than `randcase`, `endcase` and `endsequence`, a DEC a literal of decimal digits. Choices nest to any depth.
///
/// A fault is at the first token with which the tokens so far begin no such text.
pub fn read(alloc: Global, text: &[u8], tokens: &[Token]) -> Result<SeqText, SeqTextFault>
    requires spelled { All (λ t. (l : LexemeType) × IsTokenOf text.now t l) tokens.now }
    requires few { length tokens.now < 2 ^ 32 }
    ensures tree { IfOk result (λ s. (ws : List WordType) × AreWords text.now 0 tokens.now ws × IsTextOf ws s) }
    ensures few { IfOk result (λ s. length s.prods < 2 ^ 32) }
    ensures fault { IfErr result (λ e. (ws : List WordType) × AreWords text.now 0 tokens.now ws × IsFaultOf ws e) }

    // Want of memory aside, tokens that write a text are answered by it, and any others by their fault.
    ensures only_tree { (ws : List WordType) → AreWords text.now 0 tokens.now ws → (tree : SeqTree) → ws ≡ seq_words tree → MatchResult result (λ s. s ≡ text_of tree) (λ e. e ≡ fault.NoMemory) }
    ensures only_fault { (ws : List WordType) → AreWords text.now 0 tokens.now ws → (n : ℕ) → IsUnexpected ws n → MatchResult result (λ s. ⊥) (λ e. (e ≡ fault.Unexpected n) ⊎ (e ≡ fault.NoMemory)) }
{
    let mut reading = Reading::new(alloc);
    match run_through(alloc, &mut reading, text, tokens) {
        Ok(stuck) => told(stuck, reading),
        Err(_) => Err(SeqTextFault::NoMemory),
    }
}
