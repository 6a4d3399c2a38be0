// What the calls of scripts print.

use crate::asking::{Fronts, plain, says, tells};
use crate::held::joined;
use crate::texts::{CLASS, END, MODULE};
use std::alloc::Global;
use svr_status::Status;

/// A class with these items in it, one object of it, and these statements.
pub(crate) fn script(alloc: Global, items: &[u8], stmts: &[u8]) -> Vec<u8> {
    let mut text = Vec::new(alloc);
    joined(&mut text, CLASS);
    joined(&mut text, items);
    joined(&mut text, MODULE);
    joined(&mut text, stmts);
    joined(&mut text, END);
    text
}

/// Words, a class with these items, and these statements: how the run ends, and what it prints.
pub(crate) struct Run {
    pub words: &'static [&'static str],
    pub items: &'static [u8],
    pub stmts: &'static [u8],
    pub status: Status,
    pub written: &'static [u8],
}

pub(crate) fn prints(alloc: Global, row: &Run) -> bool {
    let text = script(alloc, row.items, row.stmts);
    says(alloc, &plain(row.words, &text), row.status, row.written)
}

const RUNS: [Run; 18] = [
    Run {
        words: &["run"],
        items: b"rand bit [3:0] a = 7; constraint c { a < 3 && a > 5; }",
        stmts: b"p.randomize(); p.constraint_mode(0); p.randomize(null);",
        status: Status::SomeZero,
        written: b"#1 p 0 hard\n#2 p 1 a=7\n",
    },
    Run {
        words: &["run"],
        items: b"",
        stmts: b"p.randomize();",
        status: Status::AllOne,
        written: b"#1 p 1\n",
    },
    Run {
        words: &["run"],
        items: b"rand bit [7:0] a; constraint c { a + 8'd1 == 8'd0; } constraint d { a + 8'd1 == 0; }",
        stmts: b"p.d.constraint_mode(0); p.randomize(); p.d.constraint_mode(1); p.randomize();",
        status: Status::SomeZero,
        written: b"#1 p 1 a=255\n#2 p 0 hard\n",
    },
    Run {
        words: &["run"],
        items: b"rand bit [7:0] a; rand byte b; constraint c { a == -1; } constraint d { b == -1; }",
        stmts: b"p.randomize(); p.c.constraint_mode(0); p.a.rand_mode(0); p.randomize();",
        status: Status::SomeZero,
        written: b"#1 p 0 hard\n#2 p 1 a=0 b=-1\n",
    },
    Run {
        words: &["run"],
        items: b"rand longint x; rand longint y; constraint c { x == 64'sh8000_0000_0000_0000; x / -1 == x; y == x % 0; }",
        stmts: b"p.randomize();",
        status: Status::AllOne,
        written: b"#1 p 1 x=-9223372036854775808 y=0\n",
    },
    Run {
        words: &["run"],
        items: b"int d []; rand int s; constraint c { s == d.size() + d[1]; }",
        stmts: b"p.d = new[3]; p.d[1] = 40; p.d[7] = 9; p.randomize();",
        status: Status::AllOne,
        written: b"#1 p 1 d=[0,40,0] s=43\n",
    },
    Run {
        words: &["run"],
        items: b"rand bit [3:0] x;",
        stmts: b"int x = 9; p.randomize() with { x == local::x; };",
        status: Status::AllOne,
        written: b"#1 p 1 x=9\n",
    },
    Run {
        words: &["run"],
        items: b"rand bit [3:0] a; bit [3:0] s; constraint c { a == s; }",
        stmts: b"p.a = 4; p.randomize(s); p.a = 5; p.randomize(null);",
        status: Status::SomeZero,
        written: b"#1 p 1 a=4 s=4\n#2 p 0 hard\n",
    },
    Run {
        words: &["run"],
        items: b"bit [7:0] t [];",
        stmts: b"p.t = new[2]; p.t[1] = 300; p.randomize();",
        status: Status::AllOne,
        written: b"#1 p 1 t=[0,44]\n",
    },
    // A question that two steps answer, and one step does not.
    Run {
        words: &["run"],
        items: b"rand bit a; rand bit b; rand bit c; constraint u { a != b; b != c; a != c; }",
        stmts: b"p.randomize();",
        status: Status::SomeZero,
        written: b"#1 p 0 hard\n",
    },
    Run {
        words: &["run", "--budget", "1"],
        items: b"rand bit a; rand bit b; rand bit c; constraint u { a != b; b != c; a != c; } constraint d { a == 1; b == 0; c == 1; }",
        stmts: b"p.d.constraint_mode(0); p.randomize(); p.u.constraint_mode(0); p.d.constraint_mode(1); p.randomize();",
        status: Status::SomeGivenUp,
        written: b"#1 p gaveup hard\n#2 p 1 a=1 b=0 c=1\n",
    },
    // Soft items: of three the last holds the first; one behind them goes before all; none is left of the variable.
    Run {
        words: &["run"],
        items: b"rand bit [3:0] x; constraint c { soft x == 1; soft x < 4; soft x == 2; }",
        stmts: b"p.randomize(); p.randomize() with { soft x == 5; }; p.randomize() with { disable soft x; x == 7; };",
        status: Status::AllOne,
        written: b"#1 p 1 x=2 dropped=3\n#2 p 1 x=5 dropped=2 dropped=3 dropped=4\n#3 p 1 x=7\n",
    },
    // A cyclic property: its one value again in a new cycle, then none.
    Run {
        words: &["run"],
        items: b"randc bit [1:0] a; constraint c { a == 0; }",
        stmts: b"repeat (2) p.randomize(); p.randomize() with { a > 3; };",
        status: Status::SomeZero,
        written: b"#1 p 1 a=0\n#2 p 1 a=0 cycle=a\n#3 p 0 randc\n",
    },
    // Sizes: one that a soft item wants, one at which no elements are left, none, and one beyond the cap.
    Run {
        words: &["run"],
        items: b"rand bit d []; constraint c { d.size() < 5; soft d.size() == 3; foreach (d[k]) d[k] == 1; }",
        stmts: b"p.randomize(); p.randomize() with { d.size() == 2; d[0] == 0; }; p.randomize() with { d.size() < 0; };",
        status: Status::SomeZero,
        written: b"#1 p 1 d=[1,1,1]\n#2 p 0 hard d.size=2\n#3 p 0 size\n",
    },
    Run {
        words: &["run", "--size-cap=1"],
        items: b"rand bit d []; constraint c { d.size() == 2; }",
        stmts: b"p.randomize(); p.randomize();",
        status: Status::Limited,
        written: b"#1 p limit size\n",
    },
    // Refusals of elaboration: the first in the text is told.
    Run {
        words: &["run"],
        items: b"rand bit a; constraint c { b == 1; }",
        stmts: b"q.randomize();",
        status: Status::Refused,
        written: b"refused 2:28 7\n",
    },
    Run {
        words: &["run"],
        items: b"randc bit [8:0] a;",
        stmts: b"p.randomize();",
        status: Status::Refused,
        written: b"refused 2:17 13\n",
    },
    Run {
        words: &["run"],
        items: b"rand bit a;",
        stmts: b"P q; q.randomize();",
        status: Status::Refused,
        written: b"refused 7:6 26\n",
    },
];

#[test]
fn scripts_print_their_lines(rt: HostRuntime) {
    for (i, row) in RUNS.iter().enumerate() {
        assert!(rt; prints(rt.alloc(), row), "run {i}");
    }
}

pub(crate) const UNEQUAL: &[u8] =
    b"rand bit a; rand bit b; rand bit c; constraint u { a != b; b != c; a != c; }";

/// Words, a class with these items, and these statements: how the run ends, how what it prints begins and ends, and how the journal begins.
pub(crate) struct Front {
    pub words: &'static [&'static str],
    pub items: &'static [u8],
    pub stmts: &'static [u8],
    pub status: Status,
    pub fronts: Fronts,
}

pub(crate) fn is_told(alloc: Global, row: &Front) -> bool {
    let text = script(alloc, row.items, row.stmts);
    tells(alloc, &plain(row.words, &text), row.status, &row.fronts)
}

const FRONTS: [Front; 3] = [
    // The last of 54 calls with seed 42, whose words are those of PCG XSL RR 128/64 in its reference implementation.
    Front {
        words: &["run", "--seed", "42"],
        items: b"rand bit [7:0] a; rand bit [7:0] b; rand bit [3:0] c;",
        stmts: b"repeat (54) p.randomize();",
        status: Status::AllOne,
        fronts: Fronts {
            begin: b"#1 p 1 a=",
            end: b"\n#54 p 1 a=104 b=57 c=8\n",
            journal: b"",
        },
    },
    // A proof, and the log of a question that was given up.
    Front {
        words: &["run", "--proofs"],
        items: UNEQUAL,
        stmts: b"p.randomize();",
        status: Status::SomeZero,
        fronts: Fronts {
            begin: b"#1 p 0 hard\np hard\n",
            end: b"\ne\n",
            journal: b"",
        },
    },
    Front {
        words: &["run", "--budget=1"],
        items: UNEQUAL,
        stmts: b"p.randomize();",
        status: Status::SomeGivenUp,
        fronts: Fronts {
            begin: b"#1 p gaveup hard\n",
            end: b"gaveup hard\n",
            journal: b"p gaveup hard\n",
        },
    },
];

#[test]
fn proofs_and_logs_are_told(rt: HostRuntime) {
    for (i, row) in FRONTS.iter().enumerate() {
        assert!(rt; is_told(rt.alloc(), row), "front {i}");
    }
}
