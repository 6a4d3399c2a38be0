// With ample memory the lines of a text are written, or its refusal is told at its place.

use std::alloc::Global;
use svr_edge::MemSink;
use svr_refusal::Place;
use svr_seq_lines::{End, Stop, write_lines};

const CHOICES: &[u8] = b"randsequence (main)
main : first second done ;
first : { add; } | { dec; } := 3 ;
second : { pop; } := 2 | { push; } := 2 ;
done : { randcase 1 : a; 7 : b; endcase } ;
endsequence";

const PLAIN: &[u8] = b"randsequence () a : { x; y; } ; endsequence";

/// Texts with so many lines: how they end, and what is written.
const LINES: [(&[u8], u32, End, &[u8]); 4] = [
    (PLAIN, 3, End::Whole, b"#1 x y\n#2 x y\n#3 x y\n"),
    (
        b"randsequence () a : { } ; endsequence",
        2,
        End::Whole,
        b"#1\n#2\n",
    ),
    (
        b"randsequence () a : a ; endsequence",
        1,
        End::Limited,
        b"#1 limit\n",
    ),
    (
        b"randsequence () a : a ; endsequence",
        9,
        End::Limited,
        b"#1 limit\n",
    ),
];

/// Texts with the number of their refusal, and its line and column.
const REFUSED: [(&[u8], u8, u32, u32); 8] = [
    (b"randsequence () a : b ; endsequence", 37, 1, 21),
    (b"randsequence () a : b ; `", 1, 1, 25),
    (b"/* x", 2, 1, 1),
    (
        b"randsequence () a : { x; } :=\n4294967296 ; endsequence",
        4,
        2,
        1,
    ),
    (b"", 36, 1, 1),
    (b"randsequence () a : b", 36, 1, 22),
    (b"randsequence () a : { x; } := 0 ; endsequence", 38, 1, 17),
    (
        b"randsequence () a : repeat (2049) a ; endsequence",
        39,
        1,
        29,
    ),
];

/// How much room a sink has, and what a text writes to it before it fails.
const FAULTS: [(usize, &[u8]); 3] = [
    (0, b""),
    (10, b"#1 x y\n#2 "),
    (20, b"#1 x y\n#2 x y\n#3 x y"),
];

/// How so many lines of a text end under the seed 42, where there is memory.
fn end_of(alloc: Global, text: &[u8], count: u32, out: &mut MemSink) -> Option<Result<End, Stop>> {
    if text.len() > 1_000 {
        return None;
    }
    Some(write_lines(alloc, text, 42, count, out))
}

/// Whether they end so, with this last.
fn ends(alloc: Global, text: &[u8], count: u32, wanted: End, last: &[u8]) -> bool {
    let Ok(mut out) = MemSink::new(alloc, 2_000, Vec::new(alloc)) else {
        return false;
    };
    match end_of(alloc, text, count, &mut out) {
        Some(Ok(end)) => end == wanted && out.bytes().ends_with(last),
        _ => false,
    }
}

/// Whether they end so, and no more than this is written.
fn writes(alloc: Global, text: &[u8], count: u32, wanted: End, all: &[u8]) -> bool {
    let Ok(mut out) = MemSink::new(alloc, 2_000, Vec::new(alloc)) else {
        return false;
    };
    match end_of(alloc, text, count, &mut out) {
        Some(Ok(end)) => end == wanted && out.bytes() == all,
        _ => false,
    }
}

/// Whether a sink with so much room fails, and this is written before.
fn fails(alloc: Global, room: usize, front: &[u8]) -> bool {
    let Ok(mut out) = MemSink::new(alloc, room, Vec::new(alloc)) else {
        return false;
    };
    match end_of(alloc, PLAIN, 3, &mut out) {
        Some(Err(why)) => why == Stop::WriteFault && out.bytes() == front,
        _ => false,
    }
}

#[test]
fn last_of_54_lines(rt: HostRuntime) {
    assert!(rt; ends(rt.alloc(), CHOICES, 54, End::Whole, b"\n#54 add pop a\n"));
}

#[test]
fn lines_are_written(rt: HostRuntime) {
    for (text, count, end, all) in &LINES {
        assert!(rt; writes(rt.alloc(), text, *count, *end, all), "at {text:?}");
    }
}

#[test]
fn refusals_are_told_at_their_places(rt: HostRuntime) {
    for (text, number, line, column) in &REFUSED {
        let place = Place {
            line: *line,
            column: *column,
        };
        let end = End::Refused {
            number: *number,
            place,
        };
        assert!(rt; writes(rt.alloc(), text, 3, end, b""), "at {text:?}");
    }
}

#[test]
fn a_sink_fails_behind_a_front(rt: HostRuntime) {
    for (room, front) in &FAULTS {
        assert!(rt; fails(rt.alloc(), *room, front), "at {room}");
    }
}
