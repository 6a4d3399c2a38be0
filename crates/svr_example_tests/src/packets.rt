// Packets with a checksum, regions and sorted arrays: sums and orders of elements.

use crate::running::printed;
use crate::texts::{PACKET, REGIONS, SORTED};
use crate::told::{Told, count, is_line, number, numbers, sum};
use std::alloc::Global;

/// Whether a packet has as many bytes as it says, and the checksum of its bytes.
fn is_summed(said: &[Told], line: u64, length: u64) -> bool {
    number(said, line, 4, 0) == length
        && count(said, line, 5) == length
        && sum(said, line, 5) & 255 == number(said, line, 6, 0)
}

fn is_short(said: &[Told], line: u64) -> bool {
    let length = number(said, line, 4, 0);
    length >= 1 && length <= 12 && is_summed(said, line, length)
}

fn are_packets(alloc: Global, seed: u64) -> bool {
    let text = printed(alloc, &PACKET, seed);
    let said = numbers(alloc, &text);
    is_short(&said, 0)
        && is_short(&said, 1)
        && is_line(
            alloc,
            &text,
            2,
            b"#3 p 1 kind=WRITE length=4 payload=[16,32,48,64] checksum=160",
        )
        && is_summed(&said, 3, 20)
        && number(&said, 3, 6, 0) == 160
        && is_line(alloc, &text, 4, b"#5 p 0 size")
}

#[test]
fn packets(rt: HostRuntime) {
    for seed in 0..4 {
        assert!(rt; are_packets(rt.alloc(), seed), "seed {seed}");
    }
}

// The lines that leave no choice: which soft items are dropped follows from their order.
const REGION_LINES: [&[u8]; 5] = [
    b"#1 r 1 start=[0,16,32,48] pages=[16,16,16,16]",
    b"#2 r 1 start=[0,16,32,72] pages=[16,16,40,16] dropped=7",
    b"#3 r 1 start=[0,256,512,528] pages=[256,256,16,16] dropped=8 dropped=9",
    b"#4 h 1 start=[0,16,32,48] pages=[16,16,16,200] dropped=7",
    b"#5 h 1 start=[0,16,32,48] pages=[16,16,16,100] dropped=2 dropped=8",
];

/// Whether the regions of the last call have the sizes that it asks for, begin at 0 and at 900, and do not overlap.
fn are_apart(said: &[Told]) -> bool {
    let second = number(said, 5, 3, 1);
    let third = number(said, 5, 3, 2);
    number(said, 5, 3, 0) == 0
        && second >= 8
        && second.wrapping_add(16) <= third
        && third.wrapping_add(24) <= 900
        && number(said, 5, 3, 3) == 900
        && number(said, 5, 4, 0) == 8
        && number(said, 5, 4, 1) == 16
        && number(said, 5, 4, 2) == 24
        && number(said, 5, 4, 3) == 32
        && number(said, 5, 5, 0) == 0
}

fn are_regions(alloc: Global, seed: u64) -> bool {
    let text = printed(alloc, &REGIONS, seed);
    let mut at: u64 = 0;
    for line in &REGION_LINES {
        if !is_line(alloc, &text, at, line) {
            return false;
        }
        at = at.wrapping_add(1);
    }
    let said = numbers(alloc, &text);
    are_apart(&said)
}

#[test]
fn regions(rt: HostRuntime) {
    for seed in 0..2 {
        assert!(rt; are_regions(rt.alloc(), seed), "seed {seed}");
    }
}

/// Whether the elements of an array rise.
fn is_rising(said: &[Told], line: u64) -> bool {
    let mut before = number(said, line, 3, 0);
    for element in 1..count(said, line, 3) {
        let next = number(said, line, 3, element);
        if next <= before {
            return false;
        }
        before = next;
    }
    true
}

fn is_sorted(said: &[Told], line: u64) -> bool {
    let size = count(said, line, 3);
    size >= 4 && size <= 8 && is_rising(said, line)
}

fn are_sorted(alloc: Global, seed: u64) -> bool {
    let text = printed(alloc, &SORTED, seed);
    let said = numbers(alloc, &text);
    is_sorted(&said, 0)
        && is_sorted(&said, 1)
        && is_sorted(&said, 2)
        && is_line(
            alloc,
            &text,
            3,
            b"#4 s 1 values=[248,249,250,251,252,253,254,255]",
        )
        && is_line(alloc, &text, 4, b"#5 s 0 hard values.size=8")
        && count(&said, 5, 3) == 5
        && is_rising(&said, 5)
        && sum(&said, 5, 3) == 15
}

#[test]
fn sorted_arrays(rt: HostRuntime) {
    for seed in 0..4 {
        assert!(rt; are_sorted(rt.alloc(), seed), "seed {seed}");
    }
}
