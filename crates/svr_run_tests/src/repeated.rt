// A call that is repeated prints what the same calls print one by one (IEEE 1800-2017, 12.7.3).

use crate::calls::text_of;
use crate::held::{joined, let_go};
use crate::running::{options, print};
use std::alloc::Global;

/// A class `P`, what stands before the calls, and the call.
struct Turns {
    class: &'static [u8],
    before: &'static [u8],
    call: &'static [u8],
}

const TURNS: [Turns; 6] = [
    // sizes that are chosen, and another one in each turn
    Turns {
        class: b"class P; rand bit [3:0] d []; rand bit [3:0] a; constraint k { d.size() inside {[1:9]}; foreach (d[i]) d[i] != a; } endclass",
        before: b"",
        call: b"p.randomize();",
    },
    // a size that no item makes free stays, and cyclic values go on
    Turns {
        class: b"class P; rand bit [3:0] d []; randc bit [1:0] c; constraint k { foreach (d[i]) d[i] > c; } endclass",
        before: b"p.d = new[3];",
        call: b"p.randomize();",
    },
    // the answer of a turn is read by the next one, which answers 0 behind a 1 and 1 behind a 0
    Turns {
        class: b"class P; rand bit [1:0] a; endclass",
        before: b"int met = 0;",
        call: b"met = p.randomize() with { met == 0 || a + 5 < 5; };",
    },
    // modes that were set before
    Turns {
        class: b"class P; rand bit [7:0] a, b; constraint k { a == 3; } constraint l { b > a; } endclass",
        before: b"p.a = 9; p.a.rand_mode(0); p.k.constraint_mode(0);",
        call: b"p.randomize();",
    },
    // a list of properties and an in-line set
    Turns {
        class: b"class P; rand bit [7:0] a, b; bit [7:0] n; constraint k { soft b == 1; } endclass",
        before: b"p.n = 4;",
        call: b"p.randomize(b) with { b > n; };",
    },
    // nothing is told behind a limit
    Turns {
        class: b"class P; rand bit d []; constraint k { d.size() > 16; } endclass",
        before: b"",
        call: b"p.randomize();",
    },
];

/// The statements with the call as the body of a `repeat`.
fn together(alloc: Global, turns: &Turns) -> Vec<u8> {
    let mut stmts = Vec::new(alloc);
    joined(&mut stmts, turns.before);
    joined(&mut stmts, b" repeat (5) ");
    joined(&mut stmts, turns.call);
    stmts
}

/// The statements with the calls behind one another.
fn one_by_one(alloc: Global, turns: &Turns) -> Vec<u8> {
    let mut stmts = Vec::new(alloc);
    joined(&mut stmts, turns.before);
    for _time in 0..5 {
        joined(&mut stmts, turns.call);
    }
    stmts
}

/// What a script with these statements prints is added to a list; whether its run comes to its end.
fn prints(alloc: Global, class: &[u8], stmts: &[u8], bytes: &mut Vec<u8>) -> bool {
    let text = text_of(alloc, class, stmts);
    let ended = print(alloc, text.as_slice(), options(7, true), bytes);
    let_go(text);
    ended
}

/// What a script prints whose calls are repeated, or written one by one.
fn printed(alloc: Global, class: &[u8], stmts: Vec<u8>, bytes: &mut Vec<u8>) -> bool {
    let ended = prints(alloc, class, stmts.as_slice(), bytes);
    let_go(stmts);
    ended
}

/// Whether both scripts print the same, and something.
fn print_the_same(alloc: Global, turns: &Turns) -> bool {
    let mut first = Vec::new(alloc);
    let mut second = Vec::new(alloc);
    let have_ended = printed(alloc, turns.class, together(alloc, turns), &mut first)
        && printed(alloc, turns.class, one_by_one(alloc, turns), &mut second);
    let are_same = have_ended && !first.is_empty() && first.as_slice() == second.as_slice();
    let_go(first);
    let_go(second);
    are_same
}

#[test]
fn a_repeated_call_is_its_calls_one_by_one(rt: HostRuntime) {
    for turns in &TURNS {
        assert!(rt; print_the_same(rt.alloc(), turns));
    }
}
