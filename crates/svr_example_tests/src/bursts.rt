// Bursts of an AXI bus.

use crate::running::printed;
use crate::texts::AXI_BURST;
use crate::told::{Told, is_line, number, numbers};
use std::alloc::Global;

const FIXED: u64 = 0x46_4958_4544;

const INCR: u64 = 0x494e_4352;

const WRAP: u64 = 0x5752_4150;

/// How many bytes a beat of a size has. No burst has one over 3.
fn beat(size: u64) -> u64 {
    match size {
        0 => 1,
        1 => 2,
        2 => 4,
        3 => 8,
        _ => 0x1_0000_0000,
    }
}

/// Whether a burst of a kind may have so many beats, less one.
fn is_length(kind: u64, length: u64) -> bool {
    if kind == WRAP {
        length == 1 || length == 3 || length == 7 || length == 15
    } else if kind == FIXED {
        length <= 15
    } else {
        kind == INCR && length <= 255
    }
}

/// Whether the burst of a line is aligned, stays within its 4 KiB, and is as long as it may be.
fn is_legal(said: &[Told], line: u64) -> bool {
    let address = number(said, line, 3, 0);
    let length = number(said, line, 4, 0);
    let bytes = beat(number(said, line, 5, 0));
    let size = bytes.wrapping_mul(length.wrapping_add(1));
    address & bytes.wrapping_sub(1) == 0
        && (address & 4095).wrapping_add(size) <= 4096
        && is_length(number(said, line, 6, 0), length)
}

/// Whether the soft item on the size of a beat is kept.
fn is_wide(said: &[Told], line: u64) -> bool {
    is_legal(said, line) && number(said, line, 5, 0) == 3 && number(said, line, 7, 0) == 0
}

fn are_bursts(alloc: Global, seed: u64) -> bool {
    let text = printed(alloc, &AXI_BURST, seed);
    let said = numbers(alloc, &text);
    is_wide(&said, 0)
        && is_wide(&said, 1)
        && is_wide(&said, 2)
        && is_legal(&said, 3)
        && number(&said, 3, 5, 0) < 2
        && number(&said, 3, 6, 0) == WRAP
        && number(&said, 3, 7, 0) == 1
        && is_line(
            alloc,
            &text,
            4,
            b"#5 b 1 addr=305420288 len=255 size=3 kind=INCR",
        )
        && is_line(alloc, &text, 5, b"#6 b 0 hard")
        && is_line(
            alloc,
            &text,
            6,
            b"#7 b 1 addr=268439544 len=255 size=3 kind=INCR",
        )
}

#[test]
fn bursts(rt: HostRuntime) {
    for seed in 0..4 {
        assert!(rt; are_bursts(rt.alloc(), seed), "seed {seed}");
    }
}
