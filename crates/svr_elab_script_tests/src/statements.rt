// Values of enums, what is left out, limits, and variables without objects (6.19, 7.4, 8.4, 8.12, 10.9 and 18.8).

use crate::saying::{is_accepted, is_refused};

// Each text is one line. Behind it stands the column of the place where it is refused, before that the number where a table has two.

// 23: an enum is given anything but a member or variable of it: the first token of the expression
const ENUM_VALUES: &[(&[u8], u32)] = &[
    (
        b"typedef enum { A, B } e; class C; e x = 0; endclass module m; initial begin end endmodule",
        41,
    ),
    (
        b"typedef enum { A, B } e; module m; e v = 1; initial begin end endmodule",
        42,
    ),
    (
        b"typedef enum { A, B } e; typedef enum { D } f; class P; e x; endclass module m; initial begin P p = new; p.x = D; end endmodule",
        112,
    ),
    (
        b"typedef enum { A, B } e; class P; e x; endclass module m; initial begin P p = new; p.x = B; p.x = A + 0; end endmodule",
        99,
    ),
    (
        b"typedef enum { A, B } e; class P; e d [2]; endclass module m; initial begin P p = new; p.d = '{A, 1}; end endmodule",
        99,
    ),
    (
        b"typedef enum { A, B } e; class P; e d [2]; bit y; endclass module m; initial begin P p = new; p.d[0] = p.y; end endmodule",
        104,
    ),
    (
        b"typedef enum { A, B } e; typedef enum { D } f; module m; e v; f w; initial begin v = w; end endmodule",
        86,
    ),
    (
        b"typedef enum { A, B } e; class P; e x; endclass module m; initial begin P p = new; p.x = 1 ? A : B; end endmodule",
        90,
    ),
    (
        b"typedef enum { A, B } e; class C; e x = A, y = 1; endclass module m; initial begin end endmodule",
        48,
    ),
    (
        b"typedef enum { A, B } e; module m; e v; initial begin v = '0; end endmodule",
        59,
    ),
];

// 24: a form that is left out: the name, or the range
const LEFT_OUT: &[(&[u8], u32)] = &[
    (
        b"typedef bit [0:3] t; module m; initial begin end endmodule",
        13,
    ),
    (
        b"class B; bit a; endclass class D extends B; bit a; endclass module m; initial begin end endmodule",
        49,
    ),
    (
        b"class C; C c; endclass module m; initial begin end endmodule",
        12,
    ),
    (
        b"class B; endclass class C; rand B b; endclass module m; initial begin end endmodule",
        35,
    ),
    (
        b"class C; randc bit d [2]; endclass module m; initial begin end endmodule",
        20,
    ),
    (
        b"class C; bit d [2] = 0; endclass module m; initial begin end endmodule",
        14,
    ),
    (
        b"class C; bit m [2][]; endclass module m; initial begin end endmodule",
        14,
    ),
    (
        b"class C; bit m [$][2]; endclass module m; initial begin end endmodule",
        14,
    ),
    (
        b"class C; rand bit d [2]; constraint c { d[0] == 0; 1 + d == 0; } endclass module m; initial begin end endmodule",
        56,
    ),
    (
        b"class C; rand bit d [2]; constraint c { d dist {0}; } endclass module m; initial begin end endmodule",
        41,
    ),
    (
        b"class C; rand bit m [2][2]; constraint c { m[0] == 0; } endclass module m; initial begin end endmodule",
        44,
    ),
    (
        b"class C; bit d [2]; constraint c { foreach (d[i, j]) d[i] == 0; } endclass module m; initial begin end endmodule",
        45,
    ),
    (
        b"class C; rand bit a, d [2]; constraint c { solve d before a; } endclass module m; initial begin end endmodule",
        50,
    ),
    (
        b"class P;  endclass module m; P q; initial begin P p = new; q = p; end endmodule",
        64,
    ),
    (
        b"class P;  endclass module m; int v; initial begin P p = new; v = p; end endmodule",
        66,
    ),
    (
        b"class P; endclass module m; P p = new; P q = p; initial begin end endmodule",
        46,
    ),
    (
        b"class P; bit d [2]; endclass module m; int v; initial begin P p = new; v = p.d; end endmodule",
        78,
    ),
    (
        b"class P; bit d [2]; endclass module m; int v; initial begin P p = new; v = p.d.sum with (item); end endmodule",
        78,
    ),
    (
        b"class P; bit m [2][2]; endclass module m; initial begin P p = new; p.m = '{0, 0, 0, 0}; end endmodule",
        70,
    ),
    (
        b"class C; rand bit a, d [2]; constraint c { if (d) a == 0; } endclass module m; initial begin end endmodule",
        48,
    ),
    (
        b"class C; rand bit m [2][2]; constraint c { unique {m[0]}; } endclass module m; initial begin end endmodule",
        52,
    ),
    (b"module m; bit [0:1] v; initial begin end endmodule", 15),
    (
        b"class P; endclass module m; P p; P q; initial begin q = p; end endmodule",
        57,
    ),
    (
        b"class C; bit m [2][2] = 0; endclass module m; initial begin end endmodule",
        14,
    ),
    (
        b"class B; endclass class C; B b [2]; endclass module m; initial begin end endmodule",
        30,
    ),
    (
        b"class P; bit a; endclass module m; P q = new; initial begin P p = new; p.a = q; end endmodule",
        78,
    ),
];

// 25: a limit is passed: the declaration, the count, or the statement of the initial block with which it is
const TOO_MANY: &[(&[u8], u32)] = &[
    (
        b"class C; bit d [2048], e [2049]; endclass module m; initial begin end endmodule",
        24,
    ),
    (
        b"class C; bit m [64][33]; endclass module m; initial begin end endmodule",
        14,
    ),
    (
        b"class P; bit d []; endclass module m; initial begin P p = new; p.d = new[2048]; p.d = new[2049]; end endmodule",
        91,
    ),
    (
        b"module m; initial begin repeat (100000) ; end endmodule",
        25,
    ),
    (
        b"module m; initial begin repeat (99998) ; ; ; ; end endmodule",
        44,
    ),
    (
        b"module m; initial begin begin repeat (99998) ; end ; end endmodule",
        52,
    ),
    (
        b"module m; initial begin ; begin ; begin repeat (100000) ; end end end endmodule",
        27,
    ),
    (
        b"module m; initial begin repeat (64'hffff_ffff_ffff_ffff) ; end endmodule",
        25,
    ),
    (
        b"module m; int a = 1; initial begin repeat (99999) ; end endmodule",
        36,
    ),
    (
        b"class C; bit d [0:2048]; endclass module m; initial begin end endmodule",
        14,
    ),
    (
        b"class C; bit d [64'h8000_0000_0000_0000]; endclass module m; initial begin end endmodule",
        14,
    ),
    (
        b"class C; bit m [64'h1_0000_0000][64'h1_0000_0000]; endclass module m; initial begin end endmodule",
        14,
    ),
    (
        b"class P; bit d []; endclass module m; initial begin P p = new; p.d = new[64'hffff_ffff_ffff_ffff]; end endmodule",
        74,
    ),
    (
        b"module m; initial begin repeat (64'hffff_ffff_ffff_ffff) repeat (64'hffff_ffff_ffff_ffff) ; end endmodule",
        25,
    ),
];

// 26: a variable is used, and no `new` for it stands earlier in its list or around it: its name
const WITHOUT_OBJECT: &[(&[u8], u32)] = &[
    (
        b"class P; endclass module m; initial begin P p; p.randomize(); end endmodule",
        48,
    ),
    (
        b"class P; bit a; endclass module m; P p; int v = p.a; initial begin end endmodule",
        49,
    ),
    (
        b"class P; bit a; endclass module m; P p; initial begin p.a = 1; p = new; end endmodule",
        55,
    ),
    (
        b"class P; endclass module m; P p; initial begin begin p = new; end p.randomize(); end endmodule",
        67,
    ),
    (
        b"class P; endclass module m; P p; initial begin repeat (2) p = new; p.rand_mode(0); end endmodule",
        68,
    ),
    (
        b"class P; bit a; endclass module m; P p = new; P q; initial begin p.a = q.a; end endmodule",
        72,
    ),
    (
        b"class P; bit a; endclass module m; P q; initial begin repeat (2) begin q.a = 1; q = new; end end endmodule",
        72,
    ),
    (
        b"class P; bit a; endclass module m; P p; initial begin begin p.a = 1; end p = new; end endmodule",
        61,
    ),
];

// texts beside these that have a design
const ACCEPTED: &[&[u8]] = &[
    b"typedef enum { A, B } e; class P; e x = B; e d []; endclass module m; e v = A; int n; initial begin P p = new; p.x = v; v = p.x; p.d = '{A, v, p.x}; p.d[n] = B; n = v + 1; end endmodule",
    b"class B; bit a; constraint c { } endclass class D extends B; bit c; constraint a { } endclass module m; initial begin end endmodule",
    b"class C; rand bit d [2], m [2][2], a; bit [2:2] b; constraint c { d.size == 2; foreach (d[i]) d[i] == 0; foreach (m[i, j]) m[i][j] == a; a inside {d, m}; unique {d}; disable soft m; d.sum() with (item) == 0; m.sum == 0; } endclass module m; initial begin end endmodule",
    b"class P; rand bit d [2], m [2][2], q [$], a; endclass module m; initial begin P p = new; p.randomize(d, m); p.d.rand_mode(0); p.q = new[2]; p.q = '{1, 0}; p.d = '{0, 1}; p.a = p.d[1]; end endmodule",
    b"class P; bit d [2048], m [64][32], q []; endclass module m; initial begin P p = new; p.q = new[2048]; end endmodule",
    b"module m; initial begin repeat (99999) ; end endmodule",
    b"module m; initial begin begin repeat (99997) ; end ; end endmodule",
    b"module m; initial begin repeat (0) repeat (100000) ; end endmodule",
    b"module m; int a = 1; int b; initial begin repeat (99998) ; end endmodule",
    b"class P; bit a; constraint c { } endclass module m; P p = new; int v = p.a; initial begin P q; q = new; begin q.a = p.a; repeat (2) q.randomize(); end repeat (2) begin q = new; q.c.constraint_mode(0); end end endmodule",
    b"module m; initial begin repeat (0) repeat (64'hffff_ffff_ffff) ; end endmodule",
    b"class C; rand bit m [2][2]; constraint c { foreach (m[i]) m[i][0] == 0; m.size == 2; } endclass module m; initial begin end endmodule",
    b"typedef enum { A, B } e; class P; e d [2]; endclass module m; e v; initial begin P p = new; v = p.d[0]; p.d[1] = p.d[0]; end endmodule",
    b"class C; bit d [0:2047], e [0:0][0:2047]; endclass module m; initial begin end endmodule",
];

#[test]
fn an_enum_takes_only_its_members_and_variables(rt: HostRuntime) {
    for (text, column) in ENUM_VALUES {
        assert!(rt; is_refused(rt.alloc(), text, 23, 1, *column));
    }
}

#[test]
fn what_is_left_out_is_refused(rt: HostRuntime) {
    for (text, column) in LEFT_OUT {
        assert!(rt; is_refused(rt.alloc(), text, 24, 1, *column));
    }
}

#[test]
fn elements_and_statements_over_the_limit_are_refused(rt: HostRuntime) {
    for (text, column) in TOO_MANY {
        assert!(rt; is_refused(rt.alloc(), text, 25, 1, *column));
    }
}

#[test]
fn a_variable_without_an_object_is_refused(rt: HostRuntime) {
    for (text, column) in WITHOUT_OBJECT {
        assert!(rt; is_refused(rt.alloc(), text, 26, 1, *column));
    }
}

#[test]
fn statements_and_arrays_at_their_limits_are_accepted(rt: HostRuntime) {
    for text in ACCEPTED {
        assert!(rt; is_accepted(rt.alloc(), text));
    }
}
