// Texts of several lines, and texts with several refusals, of which the first by its place is told.

use crate::saying::is_refused;

// a text, the number of its refusal, and the line and column of its place
const SEVERAL: &[(&[u8], u8, u32, u32)] = &[
    (
        b"class P; endclass module m; P q; initial begin q.z = 1; end endmodule",
        26,
        1,
        48,
    ),
    (
        b"class P; constraint c { z; } endclass class Q; bit [64:0] a; endclass module m; initial begin end endmodule",
        7,
        1,
        25,
    ),
    (
        b"class P; constraint c { a dist {0}; } bit a, a; endclass module m; initial begin end endmodule",
        16,
        1,
        27,
    ),
    (
        b"module m; initial begin z = 1; end endmodule : n",
        7,
        1,
        25,
    ),
    (
        b"typedef bit [-1:0] t; module m; initial begin end endmodule",
        24,
        1,
        13,
    ),
];

// a class, an object of it and a call, each on lines of its own
const LINES: &[(&[u8], u8, u32, u32)] = &[
    (
        b"class P;\nrandc bit [8:0] a;\nendclass\nmodule m;\ninitial begin\nP p = new;\np.randomize();\nend\nendmodule\n",
        13,
        2,
        17,
    ),
    (
        b"class P;\nrand bit a; rand bit b; constraint c { solve a before b; solve b before a; }\nendclass\nmodule m;\ninitial begin\nP p = new;\np.randomize();\nend\nendmodule\n",
        20,
        2,
        58,
    ),
    (
        b"class P;\nrandc bit a; constraint c { a dist {0}; }\nendclass\nmodule m;\ninitial begin\nP p = new;\np.randomize();\nend\nendmodule\n",
        15,
        2,
        31,
    ),
    (
        b"class P;\nbit a; constraint c { a dist {0}; }\nendclass\nmodule m;\ninitial begin\nP p = new;\np.randomize();\nend\nendmodule\n",
        16,
        2,
        25,
    ),
    (
        b"class P;\nbit [7:0] b; rand bit [2:0] x; constraint c { b[x] == 1; }\nendclass\nmodule m;\ninitial begin\nP p = new;\np.randomize();\nend\nendmodule\n",
        21,
        2,
        49,
    ),
    (
        b"class P;\nrand bit a;\nendclass\nmodule m;\ninitial begin\nP p = new;\nrepeat (1000) repeat (1000) p.randomize();\nend\nendmodule\n",
        25,
        7,
        1,
    ),
];

#[test]
fn the_first_refusal_by_its_place_is_told(rt: HostRuntime) {
    for (text, number, line, column) in SEVERAL {
        assert!(rt; is_refused(rt.alloc(), text, *number, *line, *column));
    }
}

#[test]
fn places_are_told_by_line_and_column(rt: HostRuntime) {
    for (text, number, line, column) in LINES {
        assert!(rt; is_refused(rt.alloc(), text, *number, *line, *column));
    }
}
