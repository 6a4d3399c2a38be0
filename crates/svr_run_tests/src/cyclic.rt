// The order of cyclic values (IEEE 1800-2017, 18.4.2).

use crate::calls::printed_by;
use crate::held::{added, let_go};
use crate::reading::{Printed, Told};
use crate::running::options;
use std::alloc::Global;

/// A class with one cyclic property, its calls, how many values fit, and a number above all of them.
struct Cycle {
    class: &'static [u8],
    stmts: &'static [u8],
    calls: usize,
    values: usize,
    above: usize,
}

const CYCLES: [Cycle; 3] = [
    Cycle {
        class: b"class P; randc bit [1:0] c; endclass",
        stmts: b"repeat (20) p.randomize();",
        calls: 20,
        values: 4,
        above: 4,
    },
    // 2, 5 and 6 never fit
    Cycle {
        class: b"class P; randc bit [2:0] c; constraint k { c != 2; !(c inside {5, 6}); } endclass",
        stmts: b"repeat (20) p.randomize();",
        calls: 20,
        values: 5,
        above: 8,
    },
    // each value four times
    Cycle {
        class: b"class P; randc bit [7:0] c; endclass",
        stmts: b"repeat (1024) p.randomize();",
        calls: 1024,
        values: 256,
        above: 256,
    },
];

fn zeros(alloc: Global, count: usize) -> Vec<usize> {
    let mut zeros = Vec::new(alloc);
    for _place in 0..count {
        added(&mut zeros, 0);
    }
    zeros
}

/// Whether a value was not seen in the round, in which it is seen now.
fn is_new(rounds: &mut Vec<usize>, value: u64, round: usize) -> bool {
    match rounds.get_mut(value as usize) {
        Some(last) => {
            let is_new = *last < round;
            *last = round;
            is_new
        }
        None => false,
    }
}

/// Whether the calls go through so many values before one repeats, and just the first call of each further round says that a cycle begins.
fn goes_round(rounds: &mut Vec<usize>, calls: &[Told], values: usize) -> bool {
    let mut round: usize = 1;
    let mut place: usize = 0;
    for call in calls {
        let is_turn = place == values;
        if is_turn {
            round = round.wrapping_add(1);
            place = 0;
        }
        place = place.wrapping_add(1);
        let says_so = call.behind == 1;
        if !is_new(rounds, call.value, round) || says_so != is_turn {
            return false;
        }
    }
    true
}

fn is_round(alloc: Global, printed: &Printed, cycle: &Cycle) -> bool {
    let calls = printed.calls.as_slice();
    let mut rounds = zeros(alloc, cycle.above);
    let goes_round = goes_round(&mut rounds, calls, cycle.values);
    let_go(rounds);
    printed.ended && calls.len() == cycle.calls && goes_round
}

fn is_cycle(alloc: Global, cycle: &Cycle, seed: u64) -> bool {
    let printed = printed_by(alloc, cycle.class, cycle.stmts, options(seed, false));
    let is_so = is_round(alloc, &printed, cycle);
    let_go(printed);
    is_so
}

#[test]
fn each_value_comes_before_one_repeats(rt: HostRuntime) {
    for cycle in &CYCLES {
        assert!(rt; is_cycle(rt.alloc(), cycle, 4));
    }
}
