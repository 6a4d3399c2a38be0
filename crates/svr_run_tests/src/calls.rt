// What the calls of a script print: soft items by priority (IEEE 1800-2017, 18.5.14), cyclic values (18.4.2) and sizes of arrays (18.4 and 18.5.8).

ghost use Rattle.svr_run.specs.CanRun.{AreAllowed};

use crate::held::{joined, let_go};
use crate::reading::Printed;
use crate::running::{of_one_step, options, printed_of};
use std::alloc::Global;
use svr_phase::Options;

/// A class `P`, the statements behind `P p = new;`, the lines that the calls print, and how many proofs and logs stand behind the lines.
pub(crate) struct Script {
    pub(crate) class: &'static [u8],
    pub(crate) stmts: &'static [u8],
    pub(crate) lines: &'static [u8],
    pub(crate) proofs: u64,
}

/// The text of a script with one object.
pub(crate) fn text_of(alloc: Global, class: &[u8], stmts: &[u8]) -> Vec<u8> {
    let mut text = Vec::new(alloc);
    joined(&mut text, class);
    joined(&mut text, b" module m; initial begin P p = new; ");
    joined(&mut text, stmts);
    joined(&mut text, b" end endmodule");
    text
}

/// What a script with one object prints, read back.
pub(crate) fn printed_by(alloc: Global, class: &[u8], stmts: &[u8], opts: Options) -> Printed
    requires allowed { AreAllowed opts }
{
    let text = text_of(alloc, class, stmts);
    let printed = printed_of(alloc, text.as_slice(), opts);
    let_go(text);
    printed
}

fn is_printed(printed: &Printed, script: &Script) -> bool {
    printed.ended
        && printed.lines.as_slice() == script.lines
        && printed.proofs == script.proofs
        && printed.accepted == script.proofs
}

/// Whether a script prints its lines, with so many proofs, each of which the checker accepts.
fn prints(alloc: Global, script: &Script, opts: Options) -> bool
    requires { AreAllowed opts }
{
    let printed = printed_by(alloc, script.class, script.stmts, opts);
    let is_so = is_printed(&printed, script);
    let_go(printed);
    is_so
}

// Rank 1 is the last soft item: one that stands later has priority, an in-line one over those of the class, one of a class over those that it inherits.
const SOFT: [Script; 12] = [
    Script {
        class: b"class P; rand bit [7:0] a, b; constraint c { soft a == 1; soft b == 2; } endclass",
        stmts: b"p.randomize();",
        lines: b"#1 p 1 a=1 b=2\n",
        proofs: 0,
    },
    Script {
        class: b"class P; rand bit [7:0] a; constraint c { soft a == 1; soft a == 2; } endclass",
        stmts: b"p.randomize();",
        lines: b"#1 p 1 a=2 dropped=2\n",
        proofs: 1,
    },
    Script {
        class: b"class P; rand bit [7:0] a; constraint c { soft a == 1; a == 3; } endclass",
        stmts: b"p.randomize();",
        lines: b"#1 p 1 a=3 dropped=1\n",
        proofs: 1,
    },
    Script {
        class: b"class P; rand bit [7:0] a; constraint c { soft a == 1; soft a == 2; soft a == 3; } endclass",
        stmts: b"p.randomize();",
        lines: b"#1 p 1 a=3 dropped=2 dropped=3\n",
        proofs: 2,
    },
    // one that is not dropped may stand below one that is
    Script {
        class: b"class P; rand bit [7:0] a; constraint c { soft a < 10; soft a > 20; soft a == 5; } endclass",
        stmts: b"p.randomize();",
        lines: b"#1 p 1 a=5 dropped=2\n",
        proofs: 1,
    },
    // no two of them contradict each other, but all three do
    Script {
        class: b"class P; rand bit [7:0] a, b; constraint c { soft a == b; soft a == 4; soft b == 5; } endclass",
        stmts: b"p.randomize();",
        lines: b"#1 p 1 a=4 b=5 dropped=3\n",
        proofs: 1,
    },
    Script {
        class: b"class P; rand bit [7:0] a; constraint c { soft a == 1; } endclass",
        stmts: b"p.randomize() with { soft a == 2; }; p.randomize() with { a == 7; }; p.randomize();",
        lines: b"#1 p 1 a=2 dropped=2\n#2 p 1 a=7 dropped=1\n#3 p 1 a=1\n",
        proofs: 2,
    },
    Script {
        class: b"class B; rand bit [7:0] a; constraint c { soft a == 1; } endclass class P extends B; constraint d { soft a == 2; } endclass",
        stmts: b"p.randomize(); p.d.constraint_mode(0); p.randomize();",
        lines: b"#1 p 1 a=2 dropped=2\n#2 p 1 a=1\n",
        proofs: 1,
    },
    // what `disable soft` removes has no rank
    Script {
        class: b"class P; rand bit [7:0] a; constraint c { soft a == 1; } endclass",
        stmts: b"p.randomize() with { disable soft a; a == 9; }; p.randomize() with { disable soft a; soft a == 6; };",
        lines: b"#1 p 1 a=9\n#2 p 1 a=6\n",
        proofs: 0,
    },
    Script {
        class: b"class P; rand bit [7:0] a; rand bit b; constraint c { b == 1; soft a == 1; if (b == 1) { soft a == 2; } } endclass",
        stmts: b"p.randomize();",
        lines: b"#1 p 1 a=2 b=1 dropped=2\n",
        proofs: 1,
    },
    Script {
        class: b"class P; rand bit [7:0] d [2]; constraint c { foreach (d[i]) soft d[i] == 3; d[0] == 4; } endclass",
        stmts: b"p.randomize();",
        lines: b"#1 p 1 d=[4,3] dropped=2\n",
        proofs: 1,
    },
    Script {
        class: b"class P; rand bit [7:0] a; constraint c { soft a == 1; a > 4; a < 3; } endclass",
        stmts: b"p.randomize();",
        lines: b"#1 p 0 hard\n",
        proofs: 1,
    },
];

#[test]
fn soft_items_are_kept_by_priority(rt: HostRuntime) {
    for script in &SOFT {
        assert!(rt; prints(rt.alloc(), script, options(1, true)));
    }
}

const CYCLIC: [Script; 4] = [
    // each of the other three values is refused before a new cycle begins
    Script {
        class: b"class P; randc bit [1:0] c; constraint k { c == 1; } endclass",
        stmts: b"repeat (3) p.randomize();",
        lines: b"#1 p 1 c=1\n#2 p 1 c=1 cycle=c\n#3 p 1 c=1 cycle=c\n",
        proofs: 6,
    },
    Script {
        class: b"class P; randc bit [1:0] c; constraint k { c > 2; c < 3; } endclass",
        stmts: b"p.randomize();",
        lines: b"#1 p 0 randc\n",
        proofs: 4,
    },
    // a value is chosen before the others, and may leave none for them
    Script {
        class: b"class P; randc bit [1:0] c; rand bit [1:0] a; constraint k { c == 1; a == c; a != 1; } endclass",
        stmts: b"p.randomize();",
        lines: b"#1 p 0 hard\n",
        proofs: 1,
    },
    // what is not random is not chosen, and joins no cycle
    Script {
        class: b"class P; randc bit c; constraint k { c == 1; } endclass",
        stmts: b"p.c = 1; p.randomize(null); p.c.rand_mode(0); p.randomize(); p.c.rand_mode(1); p.randomize();",
        lines: b"#1 p 1 c=1\n#2 p 1 c=1\n#3 p 1 c=1\n",
        proofs: 0,
    },
];

#[test]
fn cyclic_values_are_chosen_first(rt: HostRuntime) {
    for script in &CYCLIC {
        assert!(rt; prints(rt.alloc(), script, options(2, true)));
    }
}

// The cap is 16.
const SIZES: [Script; 10] = [
    Script {
        class: b"class P; rand bit [7:0] d []; constraint k { d.size() == 3; foreach (d[i]) d[i] == i; } endclass",
        stmts: b"p.randomize();",
        lines: b"#1 p 1 d=[0,1,2]\n",
        proofs: 0,
    },
    Script {
        class: b"class P; rand bit d []; constraint k { d.size() >= 16; foreach (d[i]) d[i] == 1; } endclass",
        stmts: b"p.randomize();",
        lines: b"#1 p 1 d=[1,1,1,1,1,1,1,1,1,1,1,1,1,1,1,1]\n",
        proofs: 0,
    },
    Script {
        class: b"class P; rand bit d []; rand bit [7:0] n; constraint k { d.size() == n; n inside {[2:5]}; n != 3; n[0] == 1; foreach (d[i]) d[i] == 0; } endclass",
        stmts: b"p.randomize();",
        lines: b"#1 p 1 d=[0,0,0,0,0] n=5\n",
        proofs: 0,
    },
    Script {
        class: b"class P; rand bit d []; constraint k { d.size() == 3; d.size() == 4; } endclass",
        stmts: b"p.randomize();",
        lines: b"#1 p 0 size\n",
        proofs: 1,
    },
    Script {
        class: b"class P; rand bit d []; constraint k { d.size() < 0; } endclass",
        stmts: b"p.randomize();",
        lines: b"#1 p 0 size\n",
        proofs: 1,
    },
    // a run ends with a limit
    Script {
        class: b"class P; rand bit d []; constraint k { d.size() > 16; } endclass",
        stmts: b"p.randomize(); p.randomize();",
        lines: b"#1 p limit size\n",
        proofs: 1,
    },
    Script {
        class: b"class P; rand bit d []; constraint k { d.size() == 2; foreach (d[i]) d[i] == 1; d[0] != d[1]; } endclass",
        stmts: b"p.randomize();",
        lines: b"#1 p 0 hard d.size=2\n",
        proofs: 1,
    },
    // the soft item that gave way to the other among sizes gives way among values too
    Script {
        class: b"class P; rand bit d []; constraint k { soft d.size() == 5; soft d.size() == 2; foreach (d[i]) d[i] == 1; } endclass",
        stmts: b"p.randomize();",
        lines: b"#1 p 1 d=[1,1] dropped=2\n",
        proofs: 1,
    },
    // a soft size beyond the cap is dropped
    Script {
        class: b"class P; rand bit d []; constraint k { d.size() inside {1, 17}; soft d.size() == 17; foreach (d[i]) d[i] == 0; } endclass",
        stmts: b"p.randomize();",
        lines: b"#1 p 1 d=[0] dropped=1\n",
        proofs: 1,
    },
    // an array whose size no item mentions keeps it
    Script {
        class: b"class P; rand bit [3:0] d []; constraint k { foreach (d[i]) d[i] == i + 7; } endclass",
        stmts: b"p.randomize(); p.d = new[2]; p.randomize();",
        lines: b"#1 p 1 d=[]\n#2 p 1 d=[7,8]\n",
        proofs: 0,
    },
];

#[test]
fn sizes_are_chosen_within_the_cap(rt: HostRuntime) {
    for script in &SIZES {
        assert!(rt; prints(rt.alloc(), script, options(3, true)));
    }
}

/// Three bits that are to differ from each other, which one step of the search does not show.
pub(crate) const GIVEN_UP: Script = Script {
    class: b"class P; rand bit a, b, c; constraint u { a != b; b != c; a != c; } endclass",
    stmts: b"p.randomize();",
    lines: b"#1 p gaveup hard\n",
    proofs: 1,
};

// Its log, which has no goal, is accepted.
#[test]
fn a_log_is_read_back(rt: HostRuntime) {
    assert!(rt; prints(rt.alloc(), &GIVEN_UP, of_one_step()));
}
