// With ample memory texts are read and make their lines, and each kind of fault is told at its token.

use std::alloc::{AllocError, Global};
use svr_draw::Draws;
use svr_lex::lex;
use svr_seq::{Seq, SeqEnd, derive};
use svr_seq_made::{SeqFault, read_seq};

const CHOICES: &[u8] = b"randsequence (main)
main : first second done ;
first : { add; } | { dec; } := 3 ;
second : { pop; } := 2 | { push; } := 2 ;
done : { randcase 1 : a; 7 : b; endcase } ;
endsequence";

const ENDLESS: &[u8] = b"randsequence () a : a ; endsequence";

/// Texts with the number and the token of their refusal.
const REFUSED: [(&[u8], u8, u32); 4] = [
    (b"randsequence () a : ; endsequence", 36, 5),
    (b"randsequence () a : b ; endsequence", 37, 5),
    (b"randsequence () a : { x; } := 0 ; endsequence", 38, 3),
    (b"randsequence () a : repeat (2049) a ; endsequence", 39, 7),
];

fn made(alloc: Global, text: &[u8]) -> Result<Seq, SeqFault> {
    if text.len() > 10_000 {
        return Err(SeqFault::NoMemory);
    }
    match lex(alloc, text) {
        Ok(tokens) => read_seq(alloc, text, &tokens),
        Err(_) => Err(SeqFault::NoMemory),
    }
}

/// Whether line 54 of seed 42 prints the names at these tokens, or needs too much where there are none.
fn prints(alloc: Global, text: &[u8], wanted: &[u32]) -> bool {
    match made(alloc, text) {
        Ok(seq) => {
            let mut draws = Draws::new(42, 54);
            match derive(alloc, &seq, &mut draws) {
                Ok(SeqEnd::Names(names)) => names.as_slice() == wanted,
                Ok(SeqEnd::Limit) => wanted.is_empty(),
                Err(_) => false,
            }
        }
        Err(_) => false,
    }
}

fn is_refused(alloc: Global, text: &[u8], wanted: u8, at: u32) -> bool {
    match made(alloc, text) {
        Err(SeqFault::Refused { why, token }) => why.number() == wanted && token == at,
        _ => false,
    }
}

/// So many `randcase`, each within the one before, around one name.
fn nested(alloc: Global, depth: u32) -> Result<Vec<u8>, AllocError> {
    let mut text = Vec::new(alloc);
    text.extend_from_slice(b"randsequence () a : { ")?;
    for _ in 0..depth {
        text.extend_from_slice(b"randcase 1 : ")?;
    }
    text.extend_from_slice(b"x; ")?;
    for _ in 0..depth {
        text.extend_from_slice(b"endcase ")?;
    }
    text.extend_from_slice(b"} ; endsequence")?;
    Ok(text)
}

/// Whether 128 of them print the name.
fn deepest_prints(alloc: Global) -> bool {
    match nested(alloc, 128) {
        Ok(text) => prints(alloc, &text, &[390]),
        Err(_) => false,
    }
}

/// Whether of 129 the innermost is refused.
fn deeper_is_refused(alloc: Global) -> bool {
    match nested(alloc, 129) {
        Ok(text) => is_refused(alloc, &text, 39, 390),
        Err(_) => false,
    }
}

#[test]
fn choices_nest_128_deep(rt: HostRuntime) {
    assert!(rt; deepest_prints(rt.alloc()));
    assert!(rt; deeper_is_refused(rt.alloc()));
}

#[test]
fn texts_make_their_lines(rt: HostRuntime) {
    assert!(rt; prints(rt.alloc(), CHOICES, &[13, 27, 46]));
    assert!(rt; prints(rt.alloc(), ENDLESS, &[]));
}

#[test]
fn texts_are_refused(rt: HostRuntime) {
    for (text, number, token) in &REFUSED {
        assert!(rt;
            is_refused(rt.alloc(), text, *number, *token),
            "at {text:?}"
        );
    }
}
