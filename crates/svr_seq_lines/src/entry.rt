// The lines of a text, or its refusal.

ghost use Rattle.std.specs.Prelude.{◌≡◌, ◌≤◌, ◌<◌, ◌^◌, length, IfOk, IfErr, OnOk};
ghost use Rattle.std.specs.List.{All};
ghost use Rattle.svr_limits.specs.declared.limit.TheConstants.{TEXT_LIMIT};
ghost use Rattle.svr_token.specs.declared.lexeme.Lexeme.{Lexeme as LexemeType};
ghost use Rattle.svr_token.specs.Tokens.{IsTokenized, IsTokenOf};
ghost use Rattle.svr_seq_lines.specs.Said.{Tells, Stops};

use crate::end::{End, Stop};
use crate::refusal::{lexical, of_tokens};
use crate::sequence::{Sequence, tell_lines};
use std::alloc::Global;
use svr_edge::Sink;
use svr_lex::lex;
use svr_seq_made::read_seq;
use svr_token::{Names, Token};

/// The lines of a text with these tokens.
fn lines_of<K: Sink>(
    alloc: Global,
    names: Names<'_>,
    seed: u64,
    count: u32,
    out: &mut K,
) -> Result<End, Stop>
    requires small { length names.text.now ≤ TEXT_LIMIT }
    requires spelled { All (λ t. (l : LexemeType) × IsTokenOf names.text.now t l) names.tokens.now }
    requires few { length names.tokens.now < 2 ^ 32 }
    requires tokens { IsTokenized names.text.now names.tokens.now }
    ensures tells { IfOk result (λ end. Tells names.entry.text.now seed count end (K.written out.old) (K.written out.new)) }
    ensures kept { OnOk result (K.faults out.new ≡ K.faults out.old) }
    ensures stops { IfErr result (λ why. Stops names.entry.text.now seed count why (K.written out.old) (K.faults out.old) (K.written out.new) (K.faults out.new)) }
    ensures faults { K.faults out.old ≤ K.faults out.new }
{
    match read_seq(alloc, names.text, names.tokens) {
        Ok(seq) => {
            let sequence = Sequence {
                names,
                seq: &seq,
                seed,
            };
            let end = tell_lines(alloc, &sequence, count, out);
            drop(seq);
            end
        }
        Err(fault) => of_tokens(names.text, names.tokens, fault),
    }
}

/// Writes the lines of a text of `randsequence` of at most 4,194,304 bytes: from 1 to this number, or up to and with the first that needs over 100,000 units. Each line is written before the next one is made, and line n draws its words from the seed with n.
///
/// A text with a lexical fault, whose tokens write no `randsequence`, or that is refused, has no lines, and its first refusal is answered.
pub fn write_lines<K: Sink>(
    alloc: Global,
    text: &[u8],
    seed: u64,
    count: u32,
    out: &mut K,
) -> Result<End, Stop>
    requires { length text.now ≤ TEXT_LIMIT }
    ensures tells { IfOk result (λ end. Tells text.now seed count end (K.written out.old) (K.written out.new)) }
    ensures kept { OnOk result (K.faults out.new ≡ K.faults out.old) }

    // Writing stops only for want of memory, or where the sink failed. What is written then is a front of the lines.
    ensures stops { IfErr result (λ why. Stops text.now seed count why (K.written out.old) (K.faults out.old) (K.written out.new) (K.faults out.new)) }
    ensures faults { K.faults out.old ≤ K.faults out.new }
{
    match lex(alloc, text) {
        Ok(tokens) => {
            let names = Names {
                text,
                tokens: &tokens,
            };
            lines_of(alloc, names, seed, count, out)
        }
        Err(fault) => lexical(text, fault),
    }
}
