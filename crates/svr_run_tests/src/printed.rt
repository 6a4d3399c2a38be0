// Proofs and logs, as they are and with a changed number.

ghost use Rattle.svr_run.specs.CanRun.{AreAllowed};

use crate::calls::{GIVEN_UP, Script, text_of};
use crate::held::{added, let_go};
use crate::reading::counts_of;
use crate::running::{of_one_step, options, print};
use std::alloc::Global;
use svr_phase::Options;

/// How far a number is turned into 0: its line has not come yet, it is the next one, it is over.
#[derive(Clone, Copy, PartialEq, Eq)]
enum Turn {
    Waits,
    Begins,
    Over,
}

/// A text whose first number on the first line of a kind is 0.
fn changed(alloc: Global, text: &[u8], kind: u8) -> Vec<u8> {
    let mut made = Vec::new(alloc);
    let mut turn = Turn::Waits;
    let mut before = b'\n';
    let mut words: u64 = 0;
    for byte in text {
        if before == b'\n' && *byte == kind && turn == Turn::Waits {
            turn = Turn::Begins;
            words = 0;
        }
        if *byte == b' ' {
            words = words.wrapping_add(1);
        }
        if turn == Turn::Begins && (*byte == b'\n' || words > 1) {
            turn = Turn::Over;
        }
        let is_digit = *byte >= b'0' && *byte <= b'9';
        if turn == Turn::Begins && is_digit {
            added(&mut made, b'0');
        } else {
            added(&mut made, *byte);
        }
        before = *byte;
    }
    made
}

/// Whether a text has so many proofs, and so many of them are accepted.
fn has_counts(alloc: Global, text: &[u8], proofs: u64, accepted: u64) -> bool {
    let counts = counts_of(alloc, text);
    counts.0 == proofs && counts.1 == accepted
}

/// Whether all proofs are accepted, and just one is refused where the first number of a kind is 0: no clause has that number.
fn is_noticed(alloc: Global, text: &[u8], kind: u8, proofs: u64) -> bool {
    let other = changed(alloc, text, kind);
    let is_refused = has_counts(alloc, other.as_slice(), proofs, proofs.wrapping_sub(1));
    let_go(other);
    is_refused && has_counts(alloc, text, proofs, proofs)
}

/// Whether that is so for each of these kinds.
fn all_noticed(alloc: Global, text: &[u8], kinds: &[u8], proofs: u64) -> bool {
    for kind in kinds {
        if !is_noticed(alloc, text, *kind, proofs) {
            return false;
        }
    }
    true
}

/// Three calls with one proof each: of a dropped soft item, of a value that is refused before a new cycle, and of an answer 0. Its lines hold values that the seed chooses.
const PROVED: Script = Script {
    class: b"class P; rand bit [3:0] a, b; randc bit c; constraint k { c == 1; soft a + b == 20; } endclass",
    stmts: b"p.randomize() with { a + b == 21; }; p.randomize(); p.randomize() with { a < b; b < a; };",
    lines: b"",
    proofs: 3,
};

/// Whether the proofs and logs of a script are accepted, and where a changed number of each of these kinds is noticed.
fn are_noticed(alloc: Global, script: &Script, opts: Options, kinds: &[u8]) -> bool
    requires { AreAllowed opts }
{
    let text = text_of(alloc, script.class, script.stmts);
    let mut bytes = Vec::new(alloc);
    let ended = print(alloc, text.as_slice(), opts, &mut bytes);
    let are_noticed = all_noticed(alloc, bytes.as_slice(), kinds, script.proofs);
    let_go(text);
    let_go(bytes);
    ended && are_noticed
}

// The start of a step, and the goal.
#[test]
fn a_changed_number_is_noticed(rt: HostRuntime) {
    assert!(rt; are_noticed(rt.alloc(), &PROVED, options(1, true), b"sg"));
}

// The start of the step.
#[test]
fn a_changed_number_of_a_log_is_noticed(rt: HostRuntime) {
    assert!(rt; are_noticed(rt.alloc(), &GIVEN_UP, of_one_step(), b"s"));
}
