// Cyclic opcodes.

use crate::held::added;
use crate::running::printed;
use crate::texts::OPCODE;
use crate::told::{Told, is_line, number, numbers};
use std::alloc::Global;

const SHL: u64 = 0x53_484c;

const SHR: u64 = 0x53_4852;

const NOP: u64 = 0x4e_4f50;
/// The name of the property, behind `cycle=`.
const OP: u64 = 0x6f70;

fn is_shift(opcode: u64) -> bool {
    opcode == SHL || opcode == SHR
}

/// Whether a call may take an opcode: the first eight any but `NOP`, the two behind them a shift.
fn is_allowed(line: u64, opcode: u64) -> bool {
    if line < 8 {
        opcode != NOP
    } else {
        is_shift(opcode)
    }
}

/// Whether all opcodes that a call may take are used.
fn are_used(line: u64, used: &[u64]) -> bool {
    if line < 8 {
        used.len() == 7
    } else {
        used.contains(&SHL) && used.contains(&SHR)
    }
}

/// Whether no opcode comes twice in a cycle, and a new one begins just where each opcode that fits is used.
fn go_round(alloc: Global, said: &[Told]) -> bool {
    let mut used: Vec<u64> = Vec::new(alloc);
    for line in 0..10 {
        let opcode = number(said, line, 3, 0);
        let begins = number(said, line, 8, 0) == OP;
        if begins != are_used(line, &used) || !is_allowed(line, opcode) {
            return false;
        }
        if begins {
            used.clear();
        }
        if used.contains(&opcode) {
            return false;
        }
        added(&mut used, opcode);
    }
    true
}

/// Whether three registers differ, and just a shift has an amount.
fn is_instruction(said: &[Told], line: u64) -> bool {
    let target = number(said, line, 4, 0);
    let first = number(said, line, 5, 0);
    let second = number(said, line, 6, 0);
    let amount = number(said, line, 7, 0);
    let is_apart = target != first && target != second && first != second;
    if is_shift(number(said, line, 3, 0)) {
        is_apart && amount != 0 && second == 0
    } else {
        is_apart && amount == 0
    }
}

fn are_instructions(said: &[Told]) -> bool {
    for line in 0..10 {
        if !is_instruction(said, line) {
            return false;
        }
    }
    true
}

fn are_opcodes(alloc: Global, seed: u64) -> bool {
    let text = printed(alloc, &OPCODE, seed);
    let said = numbers(alloc, &text);
    go_round(alloc, &said)
        && are_instructions(&said)
        && is_line(alloc, &text, 10, b"#11 i 0 randc")
        && is_line(alloc, &text, 11, b"#12 i 0 hard")
}

#[test]
fn opcodes(rt: HostRuntime) {
    for seed in 0..8 {
        assert!(rt; are_opcodes(rt.alloc(), seed), "seed {seed}");
    }
}
