// Items of constraint blocks and of in-line sets (clause 18.5).

use crate::saying::{is_accepted, is_refused};

// Each text is one line. Behind it stands the column of the place where it is refused, before that the number where a table has two.

// 14: a soft item that mentions a cyclic property, its guards counted: `soft`
const SOFT: &[(&[u8], u32)] = &[
    (
        b"class C; randc bit a; constraint c { soft a == 0; } endclass module m; initial begin end endmodule",
        38,
    ),
    (
        b"class C; randc bit a; rand bit b; constraint c { if (a) { b == 1; soft b == 0; } } endclass module m; initial begin end endmodule",
        67,
    ),
    (
        b"class C; randc bit a; rand bit d [2]; constraint c { soft d[a] == 0; } endclass module m; initial begin end endmodule",
        54,
    ),
    (
        b"class C; randc bit a; constraint c { soft a dist {0}; } endclass module m; initial begin end endmodule",
        38,
    ),
    (
        b"class P; randc bit a; endclass module m; initial begin P p = new; p.randomize() with { soft a == 1; }; end endmodule",
        88,
    ),
    (
        b"class C; randc bit a; rand bit b; constraint c { if (a) b == 1; else soft b == 0; } endclass module m; initial begin end endmodule",
        70,
    ),
    (
        b"class C; randc bit a; rand bit b; constraint c { soft b dist {a}; } endclass module m; initial begin end endmodule",
        50,
    ),
    (
        b"class B; randc bit a; endclass class D extends B; constraint c { soft a == 0; } endclass module m; initial begin end endmodule",
        66,
    ),
];

// 15: the left side of a distribution mentions a cyclic property; 16: it mentions nothing that can be random: `dist`
const DIST: &[(&[u8], u8, u32)] = &[
    (
        b"class C; randc bit a; constraint c { a dist {0}; } endclass module m; initial begin end endmodule",
        15,
        40,
    ),
    (
        b"class C; randc bit a; rand bit b; constraint c { b == 0; if (b) a + b dist {[0:1] := 1}; } endclass module m; initial begin end endmodule",
        15,
        71,
    ),
    (
        b"class C; randc bit a; rand bit d [2]; constraint c { d[a] dist {0}; } endclass module m; initial begin end endmodule",
        15,
        59,
    ),
    (
        b"class P; randc bit a; endclass module m; initial begin P p = new; p.randomize() with { a dist {1}; }; end endmodule",
        15,
        90,
    ),
    (
        b"class C; bit a; constraint c { a dist {0}; } endclass module m; initial begin end endmodule",
        16,
        34,
    ),
    (
        b"class C; rand bit a; constraint c { a == 1; 1 dist {[0:1], a}; } endclass module m; initial begin end endmodule",
        16,
        47,
    ),
    (
        b"class C; rand bit d [2]; constraint c { foreach (d[i]) i dist {0}; } endclass module m; initial begin end endmodule",
        16,
        58,
    ),
    (
        b"class C; bit d []; constraint c { d.size() dist {1}; } endclass module m; initial begin end endmodule",
        16,
        44,
    ),
    (
        b"class P; rand bit a; endclass module m; bit v; initial begin P p = new; p.randomize() with { v dist {a}; }; end endmodule",
        16,
        96,
    ),
    (
        b"class B; bit s; constraint c { s dist {0}; } endclass class P; bit s; endclass module m; initial begin P p = new; p.randomize(s); end endmodule",
        16,
        34,
    ),
    (
        b"class P; rand bit a; bit s; endclass module m; initial begin P p = new; p.randomize(a) with { s dist {0}; }; end endmodule",
        16,
        97,
    ),
    (
        b"class C; bit d [2]; constraint c { d.sum() dist {1}; } endclass module m; initial begin end endmodule",
        16,
        44,
    ),
];

// 17: the first member that differs from the first in width or sign; 18: a cyclic member
const UNIQUE: &[(&[u8], u8, u32)] = &[
    (
        b"class C; rand bit a; rand bit [1:0] b; constraint c { unique {a, b}; } endclass module m; initial begin end endmodule",
        17,
        66,
    ),
    (
        b"class C; byte a; bit [7:0] b; byte e; constraint c { unique {a, e, b}; } endclass module m; initial begin end endmodule",
        17,
        68,
    ),
    (
        b"class C; rand bit [3:0] d [2]; rand bit [4:0] a; constraint c { unique {d, a}; } endclass module m; initial begin end endmodule",
        17,
        76,
    ),
    (
        b"class C; rand bit a; randc bit [1:0] b; constraint c { unique {a, b}; } endclass module m; initial begin end endmodule",
        17,
        67,
    ),
    (
        b"class P; bit a; byte d [2]; endclass module m; initial begin P p = new; p.randomize() with { unique {a, d[0]}; }; end endmodule",
        17,
        105,
    ),
    (
        b"class C; randc bit a; constraint c { unique {a}; } endclass module m; initial begin end endmodule",
        18,
        46,
    ),
    (
        b"class C; randc bit a; rand bit b; constraint c { unique {b, a}; } endclass module m; initial begin end endmodule",
        18,
        61,
    ),
    (
        b"class P; randc bit a, b; rand bit e; endclass module m; initial begin P p = new; p.randomize() with { unique {e, a, b}; }; end endmodule",
        18,
        114,
    ),
];

// 19: a name in `solve` that is cyclic, or not declared `rand`; 20: the `solve` with which a property stands before itself
const SOLVE: &[(&[u8], u8, u32)] = &[
    (
        b"class C; randc bit a; rand bit b; constraint c { solve a before b; } endclass module m; initial begin end endmodule",
        19,
        56,
    ),
    (
        b"class C; rand bit a, b; bit s; constraint c { solve a, s before b; } endclass module m; initial begin end endmodule",
        19,
        56,
    ),
    (
        b"class P; rand bit a; bit s; constraint c { solve a before s; } endclass module m; initial begin P p = new; p.randomize(s); end endmodule",
        19,
        59,
    ),
    (
        b"class C; rand bit a; constraint c { solve a before a; } endclass module m; initial begin end endmodule",
        20,
        37,
    ),
    (
        b"class C; rand bit a, b; constraint c { solve a, b before b; } endclass module m; initial begin end endmodule",
        20,
        40,
    ),
    (
        b"class C; randc bit a; constraint c { solve a before a; } endclass module m; initial begin end endmodule",
        20,
        38,
    ),
    (
        b"class C; rand bit a, b, e; constraint c { solve a before b; solve b before e; solve e before a; } endclass module m; initial begin end endmodule",
        20,
        79,
    ),
    (
        b"class C; rand bit a, b; constraint c { solve a before b; } constraint d { a == b; solve b before a; } endclass module m; initial begin end endmodule",
        20,
        83,
    ),
    (
        b"class B; rand bit a, b; constraint c { solve a before b; } endclass class D extends B; constraint d { solve b before a; } endclass module m; initial begin end endmodule",
        20,
        103,
    ),
    (
        b"class C; rand bit a, b, d; constraint c { solve a, b before d, a; } endclass module m; initial begin end endmodule",
        20,
        43,
    ),
    (
        b"class C; rand bit d []; constraint c { solve d.size before d.size; } endclass module m; initial begin end endmodule",
        20,
        40,
    ),
];

// 21: an index of a bit, or of what is disabled, that can be random: its first token
const INDEXES: &[(&[u8], u32)] = &[
    (
        b"class C; bit [7:0] b; rand bit [2:0] x; constraint c { b[x] == 1; } endclass module m; initial begin end endmodule",
        58,
    ),
    (
        b"class C; rand bit [3:0] d [2]; rand bit [1:0] x; constraint c { d[x][x + 1] == 0; } endclass module m; initial begin end endmodule",
        70,
    ),
    (
        b"class C; rand bit d [4]; rand bit [1:0] x; constraint c { disable soft d[x]; } endclass module m; initial begin end endmodule",
        74,
    ),
    (
        b"class C; rand bit m [2][2]; rand bit x; constraint c { disable soft m[0][x]; } endclass module m; initial begin end endmodule",
        74,
    ),
    (
        b"class P; bit [7:0] b; bit [2:0] s; constraint c { b[s] == 1; } endclass module m; initial begin P p = new; p.randomize(s); end endmodule",
        53,
    ),
    (
        b"class P; bit [7:0] b; rand bit [2:0] x; endclass module m; bit v; initial begin P p = new; v = p.b[p.x]; end endmodule",
        100,
    ),
    (
        b"class P; rand bit x; endclass module m; bit [1:0] v; bit w; initial begin P p = new; w = v[p.x]; end endmodule",
        92,
    ),
    (
        b"class P; rand bit x; endclass module m; bit [1:0] v; initial begin P p = new; p.randomize() with { local::v[x] == 1; }; end endmodule",
        109,
    ),
    (
        b"class C; bit [3:0] b; rand bit [1:0] d [2]; constraint c { b[d[0]] == 1; } endclass module m; initial begin end endmodule",
        62,
    ),
    (
        b"class C; bit [3:0] b; bit [1:0] t [2]; rand bit x; constraint c { b[t[x]] == 1; } endclass module m; initial begin end endmodule",
        69,
    ),
    (
        b"class B; bit [1:0] s, b; endclass class D extends B; endclass class E extends B; constraint c { b[s] == 0; } endclass module m; initial begin D p = new; p.randomize(s); end endmodule",
        99,
    ),
];

// 22: a weight, or a guard over `disable soft`, that can be random, sizes counted: its first token
const STATE: &[(&[u8], u32)] = &[
    (
        b"class C; rand bit a; constraint c { a dist {1 := a}; } endclass module m; initial begin end endmodule",
        50,
    ),
    (
        b"class C; rand bit a, d []; constraint c { a dist {0, [0:1] :/ d.size()}; } endclass module m; initial begin end endmodule",
        63,
    ),
    (
        b"class C; rand bit a, b; constraint c { if (a) disable soft b; } endclass module m; initial begin end endmodule",
        44,
    ),
    (
        b"class C; rand bit a, b; constraint c { if (a) b == 1; else disable soft b; } endclass module m; initial begin end endmodule",
        44,
    ),
    (
        b"class C; rand bit a, b; bit s; constraint c { if (a) { s -> { b == 0; disable soft b; } } } endclass module m; initial begin end endmodule",
        51,
    ),
    (
        b"class C; rand bit a, b; bit s; constraint c { if (s) a -> disable soft b; } endclass module m; initial begin end endmodule",
        54,
    ),
    (
        b"class C; rand bit d []; constraint c { if (d.size() == 1) disable soft d; } endclass module m; initial begin end endmodule",
        44,
    ),
    (
        b"class P; rand bit a; bit s; endclass module m; initial begin P p = new; p.randomize() with { if (s) disable soft a; }; p.randomize(s); end endmodule",
        98,
    ),
    (
        b"class C; randc bit a; rand bit b; constraint c { b dist {1 := a}; } endclass module m; initial begin end endmodule",
        63,
    ),
    (
        b"class C; rand bit a, d [2]; constraint c { if (!a) foreach (d[i]) disable soft d[i]; } endclass module m; initial begin end endmodule",
        48,
    ),
    (
        b"class C; bit t [2]; rand bit a, x; constraint c { a dist {1 := t[x]}; } endclass module m; initial begin end endmodule",
        64,
    ),
    (
        b"class P; bit t []; rand bit a; constraint c { if (t.size() == 1) disable soft a; } endclass module m; initial begin P p = new; p.randomize(t); end endmodule",
        51,
    ),
];

// texts beside these that have a design
const ACCEPTED: &[&[u8]] = &[
    b"class P; randc bit a; rand bit b; constraint c { a == 0; soft b == 1; disable soft a; } endclass module m; bit a; initial begin P p = new; p.randomize() with { soft b == local::a; }; end endmodule",
    b"class C; randc bit a; rand bit b; constraint c { b dist {a, [0:a] := 2}; if (a) b dist {0}; } endclass module m; initial begin end endmodule",
    b"class C; rand bit d []; bit s; constraint c { d.size() dist {1}; s + d[0] dist {1}; } endclass module m; initial begin end endmodule",
    b"class B; bit s; constraint c { s dist {0}; } endclass class D extends B; endclass module m; initial begin D p = new; p.randomize(s); end endmodule",
    b"typedef enum bit [1:0] { A, B } e; class C; rand e x; rand bit [1:0] a, d [2]; constraint c { unique {a, x, d, d[0]}; unique {x}; } endclass module m; initial begin end endmodule",
    b"class C; randc bit a; rand bit b, d [2]; constraint c { unique {d[a], b}; } endclass module m; initial begin end endmodule",
    b"class C; rand bit a, b; rand byte d; constraint c { solve a, b before d; solve a before b; a == 1; } endclass module m; initial begin end endmodule",
    b"class B; rand bit a, b; constraint c { solve a before b; } endclass class D extends B; constraint c { solve b before a; } endclass module m; initial begin end endmodule",
    b"class C; rand bit [7:0] b; bit [7:0] t [4]; rand bit [1:0] x; bit [1:0] s; rand bit d []; constraint c { t[x] == 0; b[s] == 1; b[d.size()] == 0; foreach (d[i]) { b[i] == 0; disable soft d[i]; } } endclass module m; initial begin end endmodule",
    b"class P; bit [7:0] b; bit [2:0] s; endclass module m; bit v; initial begin P p = new; v = p.b[p.s]; end endmodule",
    b"class C; rand bit a, b, d []; bit s, t []; constraint c { a dist {1 := s, [0:1] :/ t.size()}; if (s) disable soft b; else s -> disable soft a; if (a) b == 1; foreach (d[i]) disable soft d[i]; } endclass module m; initial begin end endmodule",
    b"class C; bit t [2]; rand bit x; constraint c { t[x] dist {1}; } endclass module m; initial begin end endmodule",
    b"class P; rand bit x, y, m [2][2]; bit d [2]; constraint c { m[x][y] == 0; } endclass module m; bit v; initial begin P p = new; p.d[p.x] = 1; p.randomize() with { if (v) disable soft x; m.sum() == 0; v == x; }; end endmodule",
    b"class B; bit [1:0] s, b; endclass class D extends B; endclass class E extends B; constraint c { s dist {0}; } endclass module m; initial begin D p = new; p.randomize(s); end endmodule",
    b"class C; rand bit d [2]; constraint c { d.sum() dist {1}; } endclass module m; initial begin end endmodule",
    b"class B; rand bit a, b; constraint c { solve a before b; } endclass class D extends B; constraint c { } endclass class E extends D; constraint d { solve b before a; } endclass module m; initial begin end endmodule",
];

#[test]
fn a_soft_item_of_a_cyclic_property_is_refused(rt: HostRuntime) {
    for (text, column) in SOFT {
        assert!(rt; is_refused(rt.alloc(), text, 14, 1, *column));
    }
}

#[test]
fn a_distribution_of_what_is_cyclic_or_not_random_is_refused(rt: HostRuntime) {
    for (text, number, column) in DIST {
        assert!(rt; is_refused(rt.alloc(), text, *number, 1, *column));
    }
}

#[test]
fn members_of_unique_that_differ_or_are_cyclic_are_refused(rt: HostRuntime) {
    for (text, number, column) in UNIQUE {
        assert!(rt; is_refused(rt.alloc(), text, *number, 1, *column));
    }
}

#[test]
fn an_order_of_what_is_not_rand_or_in_a_circle_is_refused(rt: HostRuntime) {
    for (text, number, column) in SOLVE {
        assert!(rt; is_refused(rt.alloc(), text, *number, 1, *column));
    }
}

#[test]
fn a_random_index_of_a_bit_or_of_a_disabled_element_is_refused(rt: HostRuntime) {
    for (text, column) in INDEXES {
        assert!(rt; is_refused(rt.alloc(), text, 21, 1, *column));
    }
}

#[test]
fn a_random_weight_or_guard_over_disable_soft_is_refused(rt: HostRuntime) {
    for (text, column) in STATE {
        assert!(rt; is_refused(rt.alloc(), text, 22, 1, *column));
    }
}

#[test]
fn items_beside_their_bounds_are_accepted(rt: HostRuntime) {
    for text in ACCEPTED {
        assert!(rt; is_accepted(rt.alloc(), text));
    }
}
