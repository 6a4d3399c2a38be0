// What the flags of a run print: which constraints contradict each other, and derivations as clauses with hints.

use crate::asking::{Case, Fronts, plain, says, sinks, status_of};
use crate::scripts::{Front, Run, UNEQUAL, is_told, prints, script};
use std::alloc::Global;
use svr_status::Status;

const LINES: [Run; 13] = [
    Run {
        words: &["run", "--conflicts"],
        items: b"rand bit [3:0] a; constraint c { a > 1; a < 9; a != 3; } constraint d { a == 0; a < 5; }",
        stmts: b"p.randomize();",
        status: Status::SomeZero,
        written: b"#1 p 0 hard\nconflict c.1 d.1\n",
    },
    // At the value that a cyclic property has taken.
    Run {
        words: &["run", "--conflicts"],
        items: b"randc bit a; rand bit b; constraint c { b == 0; }",
        stmts: b"p.randomize() with { a == 1; }; p.randomize() with { a > b; }; p.randomize();",
        status: Status::SomeZero,
        written: b"#1 p 1 a=1 b=0\n#2 p 0 hard\nconflict with.1\n#3 p 1 a=0 b=0\n",
    },
    // At the size that is chosen. A soft entry has its number too, and is in no conflict.
    Run {
        words: &["run", "--conflicts"],
        items: b"rand bit d []; constraint c { d.size() < 5; soft d.size() == 3; foreach (d[k]) d[k] == 1; }",
        stmts: b"p.randomize() with { d.size() == 2; d[0] == 0; };",
        status: Status::SomeZero,
        written: b"#1 p 0 hard d.size=2\nconflict c.3 with.2\n",
    },
    // A block that is off has no part in it.
    Run {
        words: &["run", "--conflicts"],
        items: b"rand bit [3:0] a; constraint c { a == 1; } constraint d { a == 2; } constraint e { a == 3; }",
        stmts: b"p.randomize(); p.c.constraint_mode(0); p.randomize();",
        status: Status::SomeZero,
        written: b"#1 p 0 hard\nconflict c.1 d.1\n#2 p 0 hard\nconflict d.1 e.1\n",
    },
    // An entry that state contradicts stands alone, and one that no value meets.
    Run {
        words: &["run", "--conflicts"],
        items: b"rand bit a; bit s; constraint c { a == 1; s == 1; } constraint d { a != a; }",
        stmts: b"p.randomize(); p.c.constraint_mode(0); p.randomize();",
        status: Status::SomeZero,
        written: b"#1 p 0 hard\nconflict c.2\n#2 p 0 hard\nconflict d.1\n",
    },
    // The entries of a set in braces have one name.
    Run {
        words: &["run", "--conflicts"],
        items: b"rand bit [3:0] a; rand bit on; constraint c { a < 9; if (on) { a > 2; a != 7; } else a == 7; } constraint d { a == 1; }",
        stmts: b"p.randomize();",
        status: Status::SomeZero,
        written: b"#1 p 0 hard\nconflict c.2 d.1\n",
    },
    // A loop is one entry, and `unique` behind is left out.
    Run {
        words: &["run", "--conflicts"],
        items: b"rand bit [3:0] a [3]; constraint c { a[1] < 3; foreach (a[i]) a[i] > 5; unique { a }; }",
        stmts: b"p.randomize();",
        status: Status::SomeZero,
        written: b"#1 p 0 hard\nconflict c.1 c.2\n",
    },
    Run {
        words: &["run", "--conflicts"],
        items: b"rand bit [3:0] a; constraint c { soft a == 1; a > 3; a < 2; }",
        stmts: b"p.randomize();",
        status: Status::SomeZero,
        written: b"#1 p 0 hard\nconflict c.2 c.3\n",
    },
    Run {
        words: &["run", "--conflicts"],
        items: b"randc bit [1:0] r; rand bit [3:0] a; constraint c { a == r; } constraint d { a > 3; }",
        stmts: b"p.randomize();",
        status: Status::SomeZero,
        written: b"#1 p 0 hard\nconflict c.1 d.1\n",
    },
    Run {
        words: &["run", "--conflicts"],
        items: b"rand bit [3:0] a; rand bit b; constraint c { if (b) a > 3; else a < 2; b == 1; a < 3; solve a before b; }",
        stmts: b"p.randomize();",
        status: Status::SomeZero,
        written: b"#1 p 0 hard\nconflict c.1 c.2 c.3\n",
    },
    // The entries before the last two cannot be met anyway.
    Run {
        words: &["run", "--conflicts"],
        items: b"rand bit [3:0] a; constraint c { a < a; } constraint d { a > 3; a < 2; }",
        stmts: b"p.randomize();",
        status: Status::SomeZero,
        written: b"#1 p 0 hard\nconflict c.1\n",
    },
    // A call that answers 0 in an earlier phase has none.
    Run {
        words: &["run", "--conflicts"],
        items: b"randc bit [1:0] a; rand bit d []; constraint c { a == 0; d.size() < 3; }",
        stmts: b"p.randomize() with { a > 3; }; p.randomize() with { d.size() > 4; };",
        status: Status::SomeZero,
        written: b"#1 p 0 randc\n#2 p 0 size\n",
    },
    // Without the flag there is no line.
    Run {
        words: &["run"],
        items: UNEQUAL,
        stmts: b"p.randomize();",
        status: Status::SomeZero,
        written: b"#1 p 0 hard\n",
    },
];

#[test]
fn flags_print_their_lines(rt: HostRuntime) {
    for (i, row) in LINES.iter().enumerate() {
        assert!(rt; prints(rt.alloc(), row), "line {i}");
    }
}

const FLAGS: [Front; 6] = [
    // The conflict stands behind the proofs.
    Front {
        words: &["run", "--proofs", "--conflicts"],
        items: UNEQUAL,
        stmts: b"p.randomize();",
        status: Status::SomeZero,
        fronts: Fronts {
            begin: b"#1 p 0 hard\np hard\nb a 1 0\nb b 2 0\nb c 3 0\na 6 ",
            end: b"\ne\nconflict u.1 u.2 u.3\n",
            journal: b"",
        },
    },
    Front {
        words: &["run", "--lrat", "--conflicts"],
        items: UNEQUAL,
        stmts: b"p.randomize();",
        status: Status::SomeZero,
        fronts: Fronts {
            begin: b"#1 p 0 hard\np hard\nb a 1 0\nb b 2 0\nb c 3 0\np cnf 10 22\n4 0\n",
            end: b" 0\ne\nconflict u.1 u.2 u.3\n",
            journal: b"",
        },
    },
    // A derivation, worked out from the same proof in its other form.
    Front {
        words: &["run", "--lrat", "--conflicts"],
        items: b"rand bit a; rand bit b; rand bit c; constraint u { unique {a, b, c}; }",
        stmts: b"p.randomize();",
        status: Status::SomeZero,
        fronts: Fronts {
            begin: b"#1 p 0 hard\np hard\nb a 1 0\nb b 2 0\nb c 3 0\np cnf 10 22\n4 0\n1 2 5 0\n-1 2 -5 0\n1 -2 -5 0\n-1 -2 5 0\n-5 -6 0\n5 6 0\n1 3 7 0\n-1 3 -7 0\n1 -3 -7 0\n-1 -3 7 0\n-7 -8 0\n7 8 0\n2 3 9 0\n-2 3 -9 0\n2 -3 -9 0\n-2 -3 9 0\n-9 -10 0\n9 10 0\n",
            end: b"9 10 0\n6 0\n8 0\n10 0\n23 7 -2 5 9 0 17 5 8 0\n24 7 5 9 0 23 14 2 11 0\n25 -10 -8 -6 0 6 12 24 18 0\n26 0 22 21 20 25 0\ne\nconflict u.1\n",
            journal: b"",
        },
    },
    // With both flags a proof has the one form.
    Front {
        words: &["run", "--lrat", "--proofs"],
        items: UNEQUAL,
        stmts: b"p.randomize();",
        status: Status::SomeZero,
        fronts: Fronts {
            begin: b"#1 p 0 hard\np hard\nb a 1 0\nb b 2 0\nb c 3 0\np cnf 10 22\n",
            end: b" 0\ne\n",
            journal: b"",
        },
    },
    // A log has the other, and is printed with `--proofs` alone.
    Front {
        words: &["run", "--lrat", "--budget=1"],
        items: UNEQUAL,
        stmts: b"p.randomize();",
        status: Status::SomeGivenUp,
        fronts: Fronts {
            begin: b"#1 p gaveup hard\n",
            end: b"gaveup hard\n",
            journal: b"p gaveup hard\nb a 1 0\n",
        },
    },
    Front {
        words: &["run", "--lrat", "--proofs", "--budget=1"],
        items: UNEQUAL,
        stmts: b"p.randomize();",
        status: Status::SomeGivenUp,
        fronts: Fronts {
            begin: b"#1 p gaveup hard\np gaveup hard\nb a 1 0\n",
            end: b"\ne\n",
            journal: b"p gaveup hard\nb a 1 0\n",
        },
    },
];

#[test]
fn flags_go_together(rt: HostRuntime) {
    for (i, row) in FLAGS.iter().enumerate() {
        assert!(rt; is_told(rt.alloc(), row), "flags {i}");
    }
}

/// A class with these items, and statements of which one call has one proof.
struct Proved {
    items: &'static [u8],
    stmts: &'static [u8],
}

const PROVED: [Proved; 4] = [
    Proved {
        items: UNEQUAL,
        stmts: b"p.randomize();",
    },
    Proved {
        items: b"rand bit [3:0] x; rand bit [3:0] y; constraint c { x * y == 35; x > 1; y > 1; soft x < 5; }",
        stmts: b"p.randomize();",
    },
    Proved {
        items: b"randc bit a; constraint c { a == 0; }",
        stmts: b"repeat (2) p.randomize();",
    },
    Proved {
        items: b"rand bit d []; constraint c { d.size() > 3; d.size() < 3; }",
        stmts: b"p.randomize();",
    },
];

/// What stands before the last line of a proof.
fn without_end(text: &[u8]) -> &[u8] {
    if text.ends_with(b"\ne\n") {
        &text[..text.len().saturating_sub(2)]
    } else {
        text
    }
}

/// The clauses and the derivation in what a run has printed, which has one proof.
fn derivation(printed: &[u8]) -> &[u8] {
    for at in 0..printed.len() {
        let left = &printed[at..];
        if left.starts_with(b"p cnf ") {
            return without_end(left);
        }
    }
    printed
}

/// Whether a check accepts the derivation in what this run prints.
fn is_accepted(alloc: Global, asked: &Case<'_>) -> bool {
    match sinks(alloc, asked) {
        Some((printed, logged)) => {
            let mut out = printed;
            let mut journal = logged;
            let _status = status_of(alloc, asked, &mut out, &mut journal);
            let checked = plain(&["check"], derivation(out.bytes()));
            says(alloc, &checked, Status::AllOne, b"accepted\n")
        }
        None => false,
    }
}

fn is_proved(alloc: Global, row: &Proved) -> bool {
    let text = script(alloc, row.items, row.stmts);
    let asked = Case {
        room: 400_000,
        ..plain(&["run", "--lrat"], &text)
    };
    is_accepted(alloc, &asked)
}

#[test]
fn derivations_are_accepted(rt: HostRuntime) {
    for (i, row) in PROVED.iter().enumerate() {
        assert!(rt; is_proved(rt.alloc(), row), "proved {i}");
    }
}
