// Texts that are deep, and questions that are heavy.

use crate::held::joined;
use crate::hostile::asking::{ends_in_fronts, plain, prints};
use std::alloc::Global;
use svr_status::Status;

const CLASS: &[u8] = b"class P;\n";

const MODULE: &[u8] = b"\nendclass\nmodule m;\ninitial begin\nP p = new;\n";

const END: &[u8] = b"\nend\nendmodule\n";

/// A text of parts, each so many times: how the run ends, and what it prints.
struct Deep {
    parts: &'static [(&'static [u8], usize)],
    status: Status,
    written: &'static [u8],
}

const DEEP: [Deep; 4] = [
    // A statement of the greatest height, and one that is higher by one.
    Deep {
        parts: &[
            (CLASS, 1),
            (MODULE, 1),
            (b"begin ", 128),
            (b"end ", 128),
            (END, 1),
        ],
        status: Status::AllOne,
        written: b"",
    },
    Deep {
        parts: &[
            (CLASS, 1),
            (MODULE, 1),
            (b"begin ", 129),
            (b"end ", 129),
            (END, 1),
        ],
        status: Status::Refused,
        written: b"refused 7:769 6\n",
    },
    // The weight is found by multiplication: 10 for each of 2,048 to the fourth power items.
    Deep {
        parts: &[
            (CLASS, 1),
            (
                b"rand bit [7:0] d [2048]; constraint c { foreach (d[i]) foreach (d[j]) foreach (d[k]) foreach (d[l]) d[i] == d[l]; }",
                1,
            ),
            (MODULE, 1),
            (b"p.randomize();", 1),
            (END, 1),
        ],
        status: Status::Limited,
        written: b"#1 p limit weight 175921860444160\n",
    },
    // More calls than a script may make.
    Deep {
        parts: &[
            (CLASS, 1),
            (b"rand bit a;", 1),
            (MODULE, 1),
            (b"repeat (1000) repeat (1000) p.randomize();", 1),
            (END, 1),
        ],
        status: Status::Refused,
        written: b"refused 7:1 25\n",
    },
];

/// Parts one behind the other, each so many times.
fn repeated(alloc: Global, parts: &[(&[u8], usize)]) -> Vec<u8> {
    let mut text = Vec::new(alloc);
    for (part, times) in parts {
        for _time in 0..*times {
            joined(&mut text, part);
        }
    }
    text
}

/// Whether a text is answered or refused so, and nothing more is printed.
fn is_told(alloc: Global, row: &Deep) -> bool {
    let text = repeated(alloc, row.parts);
    let asked = plain(&["run"], &text);
    prints(alloc, &asked, row.status, row.written, b"")
        && ends_in_fronts(alloc, &asked, row.status, row.written, b"")
}

#[test]
fn deep_and_heavy_texts_are_told(rt: HostRuntime) {
    for (i, row) in DEEP.iter().enumerate() {
        assert!(rt; is_told(rt.alloc(), row), "text {i}");
    }
}
