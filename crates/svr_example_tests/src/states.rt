// A state machine.

use crate::running::printed;
use crate::texts::STATE;
use crate::told::{Told, is_line, number, numbers};
use std::alloc::Global;

const RESET: u64 = 0x52_4553_4554;

const IDLE: u64 = 0x4944_4c45;

const FETCH: u64 = 0x46_4554_4348;

const EXECUTE: u64 = 0x45_5845_4355_5445;

const STALL: u64 = 0x53_5441_4c4c;

/// The moves of the machine. A fault has the weight 0, and so none leads to it.
const MOVES: [(u64, u64); 10] = [
    (RESET, IDLE),
    (IDLE, IDLE),
    (IDLE, FETCH),
    (FETCH, EXECUTE),
    (FETCH, STALL),
    (EXECUTE, FETCH),
    (EXECUTE, STALL),
    (STALL, STALL),
    (STALL, FETCH),
    (STALL, EXECUTE),
];

fn is_move(now: u64, next: u64) -> bool {
    for (from, to) in &MOVES {
        if *from == now && *to == next {
            return true;
        }
    }
    false
}

/// Whether eight calls move on, each from the state to which the one before it came.
fn moves_on(said: &[Told]) -> bool {
    let mut state = RESET;
    for line in 0..8 {
        let next = number(said, line, 4, 0);
        if number(said, line, 3, 0) != state || !is_move(state, next) {
            return false;
        }
        state = next;
    }
    true
}

fn are_states(alloc: Global, seed: u64) -> bool {
    let text = printed(alloc, &STATE, seed);
    let said = numbers(alloc, &text);
    moves_on(&said)
        && is_line(alloc, &text, 8, b"#9 m 0 hard")
        && is_line(alloc, &text, 9, b"#10 m 1 now=FETCH next=FAULT")
}

#[test]
fn states(rt: HostRuntime) {
    for seed in 0..8 {
        assert!(rt; are_states(rt.alloc(), seed), "seed {seed}");
    }
}
