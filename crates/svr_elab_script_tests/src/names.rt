// Names: what they stand for, and what is declared twice (IEEE 1800-2017, 3.13, 8.4, 18.7.1 and 18.11).

use crate::saying::{is_accepted, is_refused};

// Each text is one line. Behind it stands the column of the place where it is refused, before that the number where a table has two.

// 7: a name that is not declared, or names nothing that may stand there, or a label that differs: the name
const UNKNOWN: &[(&[u8], u32)] = &[
    (
        b"class C extends B; endclass module m; initial begin end endmodule",
        17,
    ),
    (
        b"class A extends B; endclass class B; endclass module m; initial begin end endmodule",
        17,
    ),
    (
        b"typedef bit t; class C extends t; endclass module m; initial begin end endmodule",
        32,
    ),
    (
        b"class C; endclass : D module m; initial begin end endmodule",
        21,
    ),
    (b"module m; initial begin end endmodule : n", 41),
    (b"program m; initial begin end endprogram : n", 43),
    (
        b"typedef enum { A = z } e; module m; initial begin end endmodule",
        20,
    ),
    (
        b"class C; t a; endclass typedef bit t; module m; initial begin end endmodule",
        10,
    ),
    (b"module m; t v; initial begin end endmodule", 11),
    (
        b"module m; int a = b; int b; initial begin end endmodule",
        19,
    ),
    (b"module m; int v = new; initial begin end endmodule", 15),
    (
        b"class C; constraint c { z == 1; } endclass module m; initial begin end endmodule",
        25,
    ),
    (
        b"class C; bit a; constraint c { local::a == 1; } endclass module m; initial begin end endmodule",
        39,
    ),
    (
        b"typedef enum { A } e; class C; constraint c { this.A == 0; } endclass module m; initial begin end endmodule",
        52,
    ),
    (
        b"class C; bit d [2]; constraint c { foreach (d[i]) d[i] == i; i == 0; } endclass module m; initial begin end endmodule",
        62,
    ),
    (
        b"class C; bit a; constraint c { foreach (a[i]) i == 0; } endclass module m; initial begin end endmodule",
        41,
    ),
    (
        b"class C; bit a; constraint c { a.size == 1; } endclass module m; initial begin end endmodule",
        34,
    ),
    (
        b"typedef enum { A } e; class C; rand bit b; constraint c { solve A before b; } endclass module m; initial begin end endmodule",
        65,
    ),
    (
        b"class P; constraint c { v == 1; } endclass module m; int v; initial begin P p = new; p.randomize(); end endmodule",
        25,
    ),
    (
        b"class P; bit a; endclass module m; initial begin P p = new; p.randomize() with { local::a == 1; }; end endmodule",
        89,
    ),
    (b"module m; initial begin q = new; end endmodule", 25),
    (b"module m; initial begin q.randomize(); end endmodule", 25),
    (b"module m; int v; initial begin v = new; end endmodule", 32),
    (
        b"typedef enum { A } e; module m; initial begin A = 1; end endmodule",
        47,
    ),
    (
        b"class P; bit d [2]; endclass module m; initial begin P p = new; p.d = new[2]; end endmodule",
        67,
    ),
    (
        b"class P; bit a; endclass module m; initial begin P p = new; p.a = '{1}; end endmodule",
        63,
    ),
    (
        b"class P; bit d [2]; endclass module m; initial begin P p = new; p.d = 1; end endmodule",
        67,
    ),
    (
        b"class P; bit m [2][2]; endclass module m; initial begin P p = new; p.m[0] = 1; end endmodule",
        70,
    ),
    (
        b"class P; bit [3:0] a; endclass module m; initial begin P p = new; p.a[0] = 1; end endmodule",
        69,
    ),
    (
        b"class P;  endclass module m; initial begin P p = new; p = p.randomize(); end endmodule",
        55,
    ),
    (
        b"typedef enum { A } e; class P;  endclass module m; e v; initial begin P p = new; v = p.randomize(); end endmodule",
        82,
    ),
    (
        b"class P;  endclass module m; int v; initial begin P p = new; v = p + 1; end endmodule",
        66,
    ),
    (
        b"class P; bit a; endclass module m; initial begin P p = new; p.z.rand_mode(0); end endmodule",
        63,
    ),
    (
        b"class P; constraint c { } endclass module m; initial begin P p = new; p.c.rand_mode(0); end endmodule",
        73,
    ),
    (
        b"class P; bit a; endclass module m; initial begin P p = new; p.a.constraint_mode(0); end endmodule",
        63,
    ),
    (
        b"class P; constraint c { } endclass module m; initial begin P p = new; p.randomize(c); end endmodule",
        83,
    ),
    (
        b"class C; bit a = A; endclass typedef enum { A } e; module m; initial begin end endmodule",
        18,
    ),
    (
        b"class C; bit a = z; endclass module m; initial begin end endmodule",
        18,
    ),
    (
        b"class P; rand bit a; endclass module m; initial begin P p = new; p.randomize() with { p.a == 1; }; end endmodule",
        87,
    ),
    (b"module m; initial begin this.a = 1; end endmodule", 30),
    (
        b"class P; rand bit a; endclass module m; initial begin P p = new; p.a.randomize(); end endmodule",
        68,
    ),
    (
        b"class P; rand bit a; endclass module m; bit v; initial begin P p = new; p.randomize(v); end endmodule",
        85,
    ),
    (
        b"class P; bit a; endclass module m; bit v; initial begin P p = new; p.a.rand_mode(z); end endmodule",
        82,
    ),
    (
        b"class P; rand bit a; endclass module m; bit v; initial begin P p = new; v = p.randomize() with { a == 0; z; }; end endmodule",
        106,
    ),
    (
        b"class P; bit d [2]; endclass module m; initial begin P p = new; p.d = p.d; end endmodule",
        67,
    ),
    (
        b"module m; initial begin repeat (0) z = 1; end endmodule",
        36,
    ),
    (
        b"class C; bit a; constraint c { a.sum() == 0; } endclass module m; initial begin end endmodule",
        34,
    ),
    (
        b"class P;  endclass module m; P q; initial begin P p = new; q = (p); end endmodule",
        60,
    ),
    (
        b"class P;  endclass module m; int v; initial begin P p = new; v = (p); end endmodule",
        67,
    ),
    (
        b"class B; constraint c { a == 1; } endclass class D extends B; rand bit a; endclass module m; initial begin end endmodule",
        25,
    ),
    (
        b"class P;  endclass module m; int v; initial begin P p = new; v = p.randomize; end endmodule",
        68,
    ),
    (
        b"class C; rand bit d [2]; constraint c { d.sum(x) with (item) == 0; } endclass module m; initial begin end endmodule",
        56,
    ),
    (
        b"class P; bit d []; endclass module m; P q; initial begin P p = new; p.d = '{q}; end endmodule",
        77,
    ),
    (
        b"class P; bit m [2][2]; endclass module m; initial begin P p = new; p.m = new[2]; end endmodule",
        70,
    ),
];

// 8: a name that is declared twice in one scope, or listed twice in a call: the second
const DOUBLE: &[(&[u8], u32)] = &[
    (
        b"typedef enum { A, A } e; module m; initial begin end endmodule",
        19,
    ),
    (
        b"typedef enum { A } A; module m; initial begin end endmodule",
        20,
    ),
    (
        b"typedef enum { A } e; typedef enum { B, A } f; module m; initial begin end endmodule",
        41,
    ),
    (
        b"typedef bit t; typedef bit t; module m; initial begin end endmodule",
        28,
    ),
    (
        b"typedef bit t; class t; endclass module m; initial begin end endmodule",
        22,
    ),
    (
        b"class C; bit a, a; endclass module m; initial begin end endmodule",
        17,
    ),
    (
        b"class C; bit c; constraint c { } endclass module m; initial begin end endmodule",
        28,
    ),
    (
        b"class C; constraint c { } constraint c { } endclass module m; initial begin end endmodule",
        38,
    ),
    (b"module m; int a; initial begin int a; end endmodule", 36),
    (
        b"class P; bit a, b; endclass module m; initial begin P p = new; p.randomize(a, b, a); end endmodule",
        82,
    ),
    (
        b"class A; endclass typedef enum { A } e; module m; initial begin end endmodule",
        34,
    ),
    (
        b"class P; endclass module m; P p; int p; initial begin end endmodule",
        38,
    ),
];

// texts beside these that have a design
const ACCEPTED: &[&[u8]] = &[
    b"class A; endclass : A class B extends A; endclass : B module m; initial begin end endmodule : m",
    b"program m(); initial begin end endprogram : m",
    b"class C; constraint c { this.a == 1; a == 1; } rand bit a; endclass module m; initial begin end endmodule",
    b"typedef enum { A } e; class C; bit d [2]; constraint c { foreach (d[A]) d[A] == A; A == local::A; } endclass module m; initial begin end endmodule",
    b"class P; rand bit a; endclass module m; bit a; initial begin P p = new; p.randomize() with { a == local::a; }; a = p.randomize(); end endmodule",
    b"class P; bit a, d []; constraint c { } endclass module m; initial begin P p = new; p.d = new[2]; p.d[0] = 1; p.a = p.d.size; p.a.rand_mode(0); p.c.constraint_mode(0); p.randomize(a, d); end endmodule",
    b"typedef enum { a } e; class m; bit m, a; constraint e { } endclass module m; int e; int a; initial begin m m = new; m.randomize(a); m.randomize(a); end endmodule",
    b"class B; constraint c { } endclass class D extends B; constraint c { } endclass module m; initial begin end endmodule",
    b"typedef enum { A = 1, B = A + 1 } e; class C; rand bit m [2][2]; constraint c { foreach (m[i, i]) m[i][i] == B; } endclass module m; initial begin end endmodule",
    b"class B; rand bit a; endclass class D extends B; endclass module m; D p = new; bit v; initial begin p.a = 1; void'(p.randomize(a) with { this.a == v; a == local::v; }); assert (p.randomize(null)); end endmodule",
    b"class C; rand bit sum, d [2]; constraint c { sum == 1; this.sum == 0; d.sum(x) with (x) == 1; } endclass module m; initial begin end endmodule",
];

#[test]
fn a_name_that_stands_for_nothing_there_is_refused(rt: HostRuntime) {
    for (text, column) in UNKNOWN {
        assert!(rt; is_refused(rt.alloc(), text, 7, 1, *column));
    }
}

#[test]
fn a_name_that_is_declared_or_listed_twice_is_refused(rt: HostRuntime) {
    for (text, column) in DOUBLE {
        assert!(rt; is_refused(rt.alloc(), text, 8, 1, *column));
    }
}

#[test]
fn names_of_other_scopes_and_kinds_are_accepted(rt: HostRuntime) {
    for text in ACCEPTED {
        assert!(rt; is_accepted(rt.alloc(), text));
    }
}
