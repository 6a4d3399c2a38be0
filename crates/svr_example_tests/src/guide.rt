// The texts of the guide: its first script, and each refusal with a text that causes it and one that does not.

use crate::held::joined;
use crate::running::{Outcome, options, printed, run};
use crate::texts::{FRAME, OWN_CLASS, REPAIRS};
use crate::told::{Told, is_line, number, numbers};
use std::alloc::Global;
use svr_edge::MemSink;

/// A refusal by its number, a text that is refused with it and one that is accepted, and the line of the frame before which they stand.
pub(crate) struct Repair {
    pub(crate) number: u8,
    pub(crate) line: usize,
    pub(crate) refused: &'static [u8],
    pub(crate) repaired: &'static [u8],
}

/// The line of the frame that makes a call. A text that stands before it takes its place.
const CALL: usize = 11;

/// The frame with a text in it.
fn framed(alloc: Global, at: usize, text: &[u8]) -> Vec<u8> {
    let mut made = Vec::new(alloc);
    for (i, line) in FRAME.iter().enumerate() {
        if i == at {
            joined(&mut made, text);
            joined(&mut made, b"\n");
        }
        if i != at || i != CALL {
            joined(&mut made, line);
            joined(&mut made, b"\n");
        }
    }
    made
}

/// Whether a text comes to this.
fn comes_to(alloc: Global, text: &[u8], outcome: Outcome) -> bool {
    match MemSink::new(alloc, 100_000, Vec::new(alloc)) {
        Ok(sink) => {
            let mut out = sink;
            run(alloc, text, options(1), &mut out) == outcome
        }
        Err(_) => false,
    }
}

fn is_repaired(alloc: Global, row: &Repair) -> bool {
    let refused = framed(alloc, row.line, row.refused);
    let repaired = framed(alloc, row.line, row.repaired);
    comes_to(alloc, &refused, Outcome::Refused(row.number))
        && comes_to(alloc, &repaired, Outcome::Ended)
}

#[test]
fn refusals_are_repaired(rt: HostRuntime) {
    for (i, row) in REPAIRS.iter().enumerate() {
        assert!(rt; is_repaired(rt.alloc(), row), "row {i}");
    }
}

/// Whether a transfer keeps the soft item, and its two ranges of addresses do not overlap.
fn is_apart(said: &[Told], line: u64, words: u64) -> bool {
    let source = number(said, line, 3, 0);
    let target = number(said, line, 4, 0);
    let bytes = words.wrapping_mul(4);
    number(said, line, 5, 0) == words
        && (source.wrapping_add(bytes) <= target || target.wrapping_add(bytes) <= source)
}

fn is_own_class(alloc: Global, seed: u64) -> bool {
    let text = printed(alloc, &OWN_CLASS, seed);
    let said = numbers(alloc, &text);
    is_apart(&said, 0, 16)
        && is_apart(&said, 1, 16)
        && is_apart(&said, 2, 16)
        && is_apart(&said, 3, 8)
        && number(&said, 3, 3, 0) == 4096
        && number(&said, 3, 6, 0) == 1
        && is_line(alloc, &text, 4, b"#5 d 0 hard")
}

#[test]
fn own_class(rt: HostRuntime) {
    for seed in 0..4 {
        assert!(rt; is_own_class(rt.alloc(), seed), "seed {seed}");
    }
}
