// Texts of `randsequence` from their tokens, with their names resolved.

ghost use Rattle.std.specs.Prelude.{◌≡◌, ◌⊎◌, ◌<◌, ◌^◌, ℕ, length, IfOk, IfErr, MatchResult};
ghost use Rattle.std.specs.List.{All};
ghost use Rattle.svr_token.specs.declared.lexeme.Lexeme.{Lexeme as LexemeType};
ghost use Rattle.svr_token.specs.Tokens.{IsTokenOf};
ghost use Rattle.svr_refusal.specs.declared.refusal.Refusal.{Refusal};
ghost use Rattle.svr_seq.specs.SeqTerm.{SeqTerm, seq_term};
ghost use Rattle.svr_seq.specs.Sound.{IsSound};
ghost use Rattle.svr_seq_made.specs.Reading.{IsSeqOf, IsRefused};

use crate::fault::{SeqFault, refusal_of};
use crate::whole::make;
use std::alloc::Global;
use svr_seq::Seq;
use svr_seq_text::read;
use svr_token::{Names, Token};

/// The `randsequence` that the tokens of a text write (IEEE 1800-2017, 18.16 and 18.17), with its names resolved. The conditions are what the lexer says of its tokens.
///
/// Errors: `NoSequence`, the first token with which the tokens begin no such text; otherwise the first refusal in the order of the text.
pub fn read_seq(alloc: Global, text: &[u8], tokens: &[Token]) -> Result<Seq, SeqFault>
    requires spelled { All (λ t. (l : LexemeType) × IsTokenOf text.now t l) tokens.now }
    requires few { length tokens.now < 2 ^ 32 }
    ensures made { IfOk result (λ s. IsSeqOf text.now tokens.now (seq_term s)) }
    ensures sound { IfOk result (λ s. IsSound (seq_term s)) }
    ensures refused { IfErr result (λ e. IsRefused text.now tokens.now e) }

    // Want of memory aside, tokens that write an unrefused text are answered by it, and any others by their first refusal.
    ensures only_seq { (s : SeqTerm) → IsSeqOf text.now tokens.now s → MatchResult result (λ r. seq_term r ≡ s) (λ e. e ≡ SeqFault.NoMemory) }
    ensures only_refusal { (why : Refusal) (token : ℕ) → IsRefused text.now tokens.now (SeqFault.Refused why token) → MatchResult result (λ r. ⊥) (λ e. (e ≡ SeqFault.Refused why token) ⊎ (e ≡ SeqFault.NoMemory)) }
{
    match read(alloc, text, tokens) {
        Ok(found) => make(alloc, Names { text, tokens }, &found),
        Err(fault) => Err(refusal_of(fault)),
    }
}
