// The script behind the groups of a text.

ghost use Rattle.std.specs.Prelude.{◌≡◌, length, map, slice_get, IfOk};
ghost use Rattle.svr_coverage.specs.Script as spec;

use std::alloc::{AllocError, Global};
use svr_token::Token;

/// A byte of the groups, as the script has it.
fn blank(byte: u8) -> u8
    ensures { result ≡ spec.blank byte }
{
    if byte == b'\n' { b'\n' } else { b' ' }
}

/// Where the token of this number ends, 0 where there is none.
fn stop_at(tokens: &[Token], at: usize) -> usize
    ensures { result ≡ spec.stop_of (slice_get tokens.now at) }
{
    match tokens.get(at) {
        Some(token) => token.stop as usize,
        None => 0,
    }
}

/// Where the groups end that are written by so many tokens.
fn groups_end(tokens: &[Token], used: u32) -> usize
    ensures { result ≡ spec.groups_end tokens.now used }
{
    if used == 0 {
        0
    } else {
        stop_at(tokens, used as usize - 1)
    }
}

/// The bytes of groups, as the script has them.
fn blanked(alloc: Global, bytes: &[u8]) -> Result<Vec<u8>, AllocError>
    ensures { IfOk result (λ v. v.items ≡ map spec.blank bytes.now) }
{
    let mut script = Vec::new(alloc);
    let mut left = bytes;
    'bytes: while let Some((byte, others)) = left.split_first() {
        script.push(blank(*byte))?;
        left = others;
    }
    Ok(script)
}

/// The script of a text whose groups are written by so many tokens: what stands there is blank, but for its newlines, so that each place of the script is that of the text.
#[tactic(auto, using(std::proofs::lemmas::List::take_min, std::proofs::lemmas::List::drop_min, crate::proofs::Sizes::same_size))]
pub fn script_of(
    alloc: Global,
    text: &[u8],
    tokens: &[Token],
    used: u32,
) -> Result<Vec<u8>, AllocError>
    ensures script { IfOk result (λ v. v.items ≡ spec.script_of text.now tokens.now used) }
    ensures size { IfOk result (λ v. length v.items ≡ length text.now) }
{
    let end = groups_end(tokens, used).min(text.len());
    let mut script = blanked(alloc, &text[..end])?;
    script.extend_from_slice(&text[end..])?;
    Ok(script)
}
