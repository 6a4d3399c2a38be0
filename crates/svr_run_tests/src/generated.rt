// Scripts that are made by a linear congruence: each proof that they print is accepted.

use crate::calls::text_of;
use crate::held::{joined, let_go};
use crate::running::{options, printed_of};
use std::alloc::Global;

/// What an item compares with a number.
const LEFT: [&[u8]; 12] = [
    b"a ",
    b"b ",
    b"c ",
    b"a + b ",
    b"a * b ",
    b"a - c ",
    b"d.size() ",
    b"foreach (d[i]) d[i] ",
    b"soft a ",
    b"soft a ^ b ",
    b"soft d.size() ",
    b"foreach (d[i]) soft d[i] + a ",
];

const OPERATORS: [&[u8]; 6] = [b"== ", b"!= ", b"< ", b"<= ", b"> ", b">= "];

const NUMBERS: [&[u8]; 8] = [
    b"0; ", b"1; ", b"2; ", b"3; ", b"4; ", b"5; ", b"9; ", b"14; ",
];

/// The next number of the congruence (D. E. Knuth's multiplier and increment of MMIX).
fn next(state: u64) -> u64 {
    state
        .wrapping_mul(6_364_136_223_846_793_005)
        .wrapping_add(1_442_695_040_888_963_407)
}

/// The part at the place that the high bits of a number name, counted round and round.
fn picked(parts: &[&'static [u8]], state: u64) -> &'static [u8] {
    let count = parts.len();
    if count == 0 {
        return b"";
    }
    let high = (state >> 33) as usize;
    part_at(parts, high % count)
}

fn part_at(parts: &[&'static [u8]], place: usize) -> &'static [u8] {
    match parts.get(place) {
        Some(part) => part,
        None => b"",
    }
}

/// Five items, and the next state behind them.
fn items(text: &mut Vec<u8>, state: u64) -> u64 {
    let mut now = state;
    for _item in 0..5 {
        now = next(now);
        joined(text, picked(&LEFT, now));
        now = next(now);
        joined(text, picked(&OPERATORS, now));
        now = next(now);
        joined(text, picked(&NUMBERS, now));
    }
    now
}

/// A class with five items and calls with five more.
fn script(alloc: Global, number: u64) -> Vec<u8> {
    let mut class = Vec::new(alloc);
    joined(
        &mut class,
        b"class P; rand bit [3:0] a, b; randc bit [1:0] c; rand bit [2:0] d []; constraint k { ",
    );
    let state = items(&mut class, next(number));
    joined(&mut class, b"} endclass");
    let mut stmts = Vec::new(alloc);
    joined(
        &mut stmts,
        b"p.randomize(); p.randomize(); p.randomize() with { ",
    );
    let _last = items(&mut stmts, state);
    joined(&mut stmts, b"}; p.randomize();");
    let text = text_of(alloc, &class, &stmts);
    let_go(class);
    let_go(stmts);
    text
}

/// How many proofs a made script prints. Nothing where one is refused, or the run does not end.
fn proofs_of(alloc: Global, number: u64) -> Option<u64> {
    let text = script(alloc, number);
    let printed = printed_of(alloc, text.as_slice(), options(number, true));
    let are_accepted = printed.ended && printed.accepted == printed.proofs;
    let proofs = printed.proofs;
    let_go(printed);
    let_go(text);
    if are_accepted { Some(proofs) } else { None }
}

/// Whether all proofs of these scripts are accepted, and there are some.
fn are_proved(alloc: Global, scripts: u64) -> bool {
    let mut proofs: u64 = 0;
    for number in 0..scripts {
        match proofs_of(alloc, number) {
            Some(more) => proofs = proofs.wrapping_add(more),
            None => return false,
        }
    }
    proofs >= scripts
}

#[test]
fn made_scripts_are_proved(rt: HostRuntime) {
    assert!(rt; are_proved(rt.alloc(), 50));
}
