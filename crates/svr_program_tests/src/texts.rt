// Texts that are refused, and long ones.

use crate::asking::{plain, says};
use crate::held::joined;
use std::alloc::Global;
use svr_status::Status;

/// A text that is refused, and where and why.
struct Refused {
    text: &'static [u8],
    line: &'static [u8],
}

const REFUSALS: [Refused; 9] = [
    Refused {
        text: b"",
        line: b"refused 1:1 5\n",
    },
    Refused {
        text: b"/* x",
        line: b"refused 1:1 2\n",
    },
    Refused {
        text: b"0'd1",
        line: b"refused 1:1 3\n",
    },
    Refused {
        text: b"class P;\n",
        line: b"refused 2:1 5\n",
    },
    // A lexical fault comes before any other.
    Refused {
        text: b";\n\t`",
        line: b"refused 2:2 1\n",
    },
    Refused {
        text: b"class P; rand int a; // 4294967296\nendclass",
        line: b"refused 2:9 5\n",
    },
    Refused {
        text: b"\tclass\r\n P; /*\n*/\trand rand",
        line: b"refused 3:9 5\n",
    },
    Refused {
        text: b"class P; 4294967296",
        line: b"refused 1:10 4\n",
    },
    Refused {
        text: b"class P; rand bit [3:0] a; endclass module m; initial begin P p = new;\np.randomize() with { a == 5;\nend endmodule",
        line: b"refused 3:1 5\n",
    },
];

#[test]
fn refusals_are_told_with_their_place(rt: HostRuntime) {
    for (i, row) in REFUSALS.iter().enumerate() {
        let asked = plain(&["run"], row.text);
        assert!(rt;
            says(rt.alloc(), &asked, Status::Refused, row.line),
            "refusal {i}"
        );
    }
}

pub(crate) const CLASS: &[u8] = b"class P;\n";

pub(crate) const MODULE: &[u8] = b"\nendclass\nmodule m;\ninitial begin\nP p = new;\n";

pub(crate) const END: &[u8] = b"\nend\nendmodule\n";

const NESTED: &[u8] = b"rand bit a; constraint c { a == ";

/// Parts one behind the other, each so many times.
fn repeated(alloc: Global, parts: &[(&[u8], usize)]) -> Vec<u8> {
    let mut text = Vec::new(alloc);
    for (part, times) in parts {
        for _time in 0..*times {
            joined(&mut text, part);
        }
    }
    text
}

/// Words, and a text of parts, each so many times: how the run ends, and what it prints.
struct Long {
    words: &'static [&'static str],
    parts: &'static [(&'static [u8], usize)],
    status: Status,
    written: &'static [u8],
}

fn prints(alloc: Global, row: &Long) -> bool {
    let text = repeated(alloc, row.parts);
    says(alloc, &plain(row.words, &text), row.status, row.written)
}

const LONG: [Long; 5] = [
    // `a == 1`, the 1 within pairs of parentheses.
    Long {
        words: &["run"],
        parts: &[
            (CLASS, 1),
            (NESTED, 1),
            (b"(", 125),
            (b"1", 1),
            (b")", 125),
            (b"; }", 1),
            (MODULE, 1),
            (b"p.randomize();", 1),
            (END, 1),
        ],
        status: Status::AllOne,
        written: b"#1 p 1 a=1\n",
    },
    Long {
        words: &["run"],
        parts: &[
            (CLASS, 1),
            (NESTED, 1),
            (b"(", 126),
            (b"1", 1),
            (b")", 126),
            (b"; }", 1),
            (MODULE, 1),
            (b"p.randomize();", 1),
            (END, 1),
        ],
        status: Status::Refused,
        written: b"refused 2:158 6\n",
    },
    Long {
        words: &["run"],
        parts: &[(b" ", 4_194_305)],
        status: Status::Refused,
        written: b"refused 0:0 27\n",
    },
    Long {
        words: &["check"],
        parts: &[(b" ", 4_194_305)],
        status: Status::Refused,
        written: b"refused 1:4194306 29\n",
    },
    // 122 items, each of weight 8,259.
    Long {
        words: &["run"],
        parts: &[
            (CLASS, 1),
            (
                b"rand longint a; rand longint b; constraint c { a == 1; b == 1; } constraint h {",
                1,
            ),
            (b" a * b == 1;", 122),
            (b" }", 1),
            (MODULE, 1),
            (
                b"p.h.constraint_mode(0); p.randomize(); p.h.constraint_mode(1); p.c.constraint_mode(0); p.randomize(); p.randomize();",
                1,
            ),
            (END, 1),
        ],
        status: Status::Limited,
        written: b"#1 p 1 a=1 b=1\n#2 p limit weight 1007598\n",
    },
];

#[test]
fn long_texts_meet_their_limits(rt: HostRuntime) {
    for (i, row) in LONG.iter().enumerate() {
        assert!(rt; prints(rt.alloc(), row), "long {i}");
    }
}
