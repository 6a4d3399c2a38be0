// Types, constants, ranges and enums (6.11, 6.19, 7.4, 11.4.12, 11.5.1 and 18.4.2).

use crate::saying::{is_accepted, is_refused};

// Each text is one line. Behind it stands the column of the place where it is refused, before that the number where a table has two.

// 9: a type, a concatenation or a replication of over 64 bits: its first token
const WIDE: &[(&[u8], u32)] = &[
    (
        b"typedef bit [64:0] t; module m; initial begin end endmodule",
        9,
    ),
    (
        b"typedef enum bit [64:0] { A } e; module m; initial begin end endmodule",
        14,
    ),
    (
        b"class C; rand logic signed [64:0] a; endclass module m; initial begin end endmodule",
        15,
    ),
    (b"module m; reg [70:6] v; initial begin end endmodule", 11),
    (
        b"class C; longint a; bit b; constraint c { b == 0; {a, b} == 0; } endclass module m; initial begin end endmodule",
        51,
    ),
    (
        b"class C; bit a; constraint c { {65{a}} == 0; } endclass module m; initial begin end endmodule",
        32,
    ),
    (
        b"class C; bit a; constraint c { {a, {65{a}}} == 0; } endclass module m; initial begin end endmodule",
        32,
    ),
    (
        b"class C; longint d; constraint c { {d, z == 1} == 0; } endclass module m; initial begin end endmodule",
        36,
    ),
    (
        b"class C; constraint c { {64'd0, 1'b1} == 0; } endclass module m; initial begin end endmodule",
        25,
    ),
    (
        b"class C; bit a; constraint c { {64'hffff_ffff_ffff_ffff{a}} == 0; } endclass module m; initial begin end endmodule",
        32,
    ),
    (
        b"typedef bit [64'hffff_ffff_ffff_ffff:0] t; module m; initial begin end endmodule",
        9,
    ),
    (
        b"module m; int v; initial begin v = {65{1'b1}}; end endmodule",
        36,
    ),
];

// 10: no constant where one is to be: the first token of the expression
const NOT_CONSTANT: &[(&[u8], u32)] = &[
    (
        b"typedef bit [1 + z:0] t; module m; initial begin end endmodule",
        14,
    ),
    (
        b"typedef enum { A, B = A[0] } e; module m; initial begin end endmodule",
        23,
    ),
    (
        b"class C; bit a; bit b = a; endclass module m; initial begin end endmodule",
        25,
    ),
    (
        b"class C; int n; bit d [n]; endclass module m; initial begin end endmodule",
        24,
    ),
    (
        b"class C; int n; bit d [0:1 + n]; endclass module m; initial begin end endmodule",
        26,
    ),
    (
        b"class C; bit d []; bit e [2][d.size]; endclass module m; initial begin end endmodule",
        30,
    ),
    (
        b"class C; bit [3:0] v; rand bit [1:0] a; constraint c { v[a:0] == 0; } endclass module m; initial begin end endmodule",
        58,
    ),
    (
        b"class C; bit [3:0] v; rand bit [1:0] a; constraint c { v[3:0 + a] == 0; } endclass module m; initial begin end endmodule",
        60,
    ),
    (
        b"class C; bit [3:0] v; rand bit [1:0] a; constraint c { {a{v}} == 0; } endclass module m; initial begin end endmodule",
        57,
    ),
    (
        b"module m; int v; initial begin repeat (v) ; end endmodule",
        40,
    ),
    (
        b"class P; bit d []; endclass module m; int v; initial begin P p = new; p.d = new[v]; end endmodule",
        81,
    ),
    (
        b"class C; bit [3:0] v; bit d [2]; constraint c { foreach (d[i]) v[i:0] == 0; } endclass module m; initial begin end endmodule",
        66,
    ),
];

// 11: a dimension, a bound, a count or a pattern outside its range: its first token
const RANGES: &[(&[u8], u32)] = &[
    (
        b"typedef bit [-1:-2] t; module m; initial begin end endmodule",
        14,
    ),
    (
        b"typedef bit [3:-1] t; module m; initial begin end endmodule",
        16,
    ),
    (
        b"typedef bit [64'h8000_0000_0000_0000:64'h8000_0000_0000_0000] t; module m; initial begin end endmodule",
        14,
    ),
    (
        b"class C; bit d [0]; endclass module m; initial begin end endmodule",
        17,
    ),
    (
        b"class C; bit d [1:3]; endclass module m; initial begin end endmodule",
        17,
    ),
    (
        b"class C; bit d [0:-1]; endclass module m; initial begin end endmodule",
        19,
    ),
    (
        b"class C; bit m [2][0]; endclass module m; initial begin end endmodule",
        20,
    ),
    (
        b"class C; bit [7:0] v; constraint c { v[8:0] == 0; } endclass module m; initial begin end endmodule",
        40,
    ),
    (
        b"class C; bit [7:0] v; constraint c { v[0:3] == 0; } endclass module m; initial begin end endmodule",
        40,
    ),
    (
        b"class C; bit [11:4] v; constraint c { v[11:3] == 0; } endclass module m; initial begin end endmodule",
        44,
    ),
    (
        b"class C; bit a; constraint c { {0{a}} == 0; } endclass module m; initial begin end endmodule",
        33,
    ),
    (
        b"class P; bit d []; endclass module m; initial begin P p = new; p.d = new[-1]; end endmodule",
        74,
    ),
    (
        b"class P; bit d [2]; endclass module m; initial begin P p = new; p.d = '{1}; end endmodule",
        71,
    ),
    (
        b"class P; bit d [2]; endclass module m; initial begin P p = new; p.d = '{0, 1, 0}; end endmodule",
        71,
    ),
    (
        b"class C; bit [7:0] v; constraint c { v[64'hffff_ffff_ffff_ffff:0] == 0; } endclass module m; initial begin end endmodule",
        40,
    ),
    (
        b"class C; bit [7:0] v; constraint c { v[3:-1] == 0; } endclass module m; initial begin end endmodule",
        42,
    ),
    (
        b"class C; bit a; constraint c { {-1{a}} == 0; } endclass module m; initial begin end endmodule",
        33,
    ),
    (
        b"class P; bit d []; endclass module m; initial begin P p = new; p.d = new[64'shffff_ffff_ffff_ffff]; end endmodule",
        74,
    ),
    (
        b"class C; bit [7:0] d [2]; constraint c { d[0][8:0] == 0; } endclass module m; initial begin end endmodule",
        47,
    ),
    (
        b"class C; bit m [2][1:2]; endclass module m; initial begin end endmodule",
        20,
    ),
];

// 12: a member whose value its base lacks or an earlier member has: the member
const ENUMS: &[(&[u8], u32)] = &[
    (
        b"typedef enum bit [1:0] { A, B = 3, C } e; module m; initial begin end endmodule",
        36,
    ),
    (
        b"typedef enum bit { A, B, C } e; module m; initial begin end endmodule",
        26,
    ),
    (
        b"typedef enum { A, B = 0 } e; module m; initial begin end endmodule",
        19,
    ),
    (
        b"typedef enum { A = 1, B = 0, C } e; module m; initial begin end endmodule",
        30,
    ),
    (
        b"typedef enum bit [1:0] { A = -1 } e; module m; initial begin end endmodule",
        26,
    ),
    (
        b"typedef enum byte { A = 127, B } e; module m; initial begin end endmodule",
        30,
    ),
    (
        b"typedef enum { A = 2147483647, B } e; module m; initial begin end endmodule",
        32,
    ),
    (
        b"typedef enum { A = 32'd2147483648 } e; module m; initial begin end endmodule",
        16,
    ),
    (
        b"typedef enum bit signed { A = 1 } e; module m; initial begin end endmodule",
        27,
    ),
    (
        b"typedef enum longint { A = 64'h8000_0000_0000_0000 } e; module m; initial begin end endmodule",
        24,
    ),
    (
        b"typedef enum longint { A = 64'sh7fff_ffff_ffff_ffff, B } e; module m; initial begin end endmodule",
        54,
    ),
    (
        b"typedef enum longint unsigned { A = 64'hffff_ffff_ffff_ffff, B } e; module m; initial begin end endmodule",
        62,
    ),
];

// 13: a cyclic property of over 8 bits: its name
const CYCLIC: &[(&[u8], u32)] = &[
    (
        b"class C; randc bit [8:0] a; endclass module m; initial begin end endmodule",
        26,
    ),
    (
        b"class C; randc byte a; randc shortint b; endclass module m; initial begin end endmodule",
        39,
    ),
    (
        b"typedef bit [8:0] t; class C; rand t a; randc t b; endclass module m; initial begin end endmodule",
        49,
    ),
    (
        b"class C; randc int d []; endclass module m; initial begin end endmodule",
        20,
    ),
    (
        b"class C; randc integer a; endclass module m; initial begin end endmodule",
        24,
    ),
];

// texts beside these that have a design
const ACCEPTED: &[&[u8]] = &[
    b"typedef bit [63:0] t; typedef bit [70:7] u; class C; t a; u b; bit e; constraint c { {64{e}} == {a[62:0], e}; } endclass module m; initial begin end endmodule",
    b"typedef enum { A = 3, B = {1'b1, 1'b0} + A } e; typedef bit [$unsigned(A):(1 inside {[0:$]}) - 1] t; class C; t a = !A; bit d [A * 2]; endclass module m; initial begin repeat (A + B) ; end endmodule",
    b"typedef bit [64'h7fff_ffff_ffff_ffff:64'h7fff_ffff_ffff_ffff] t; module m; initial begin end endmodule",
    b"class C; bit d [1], e [0:0], m [1][1]; bit [11:4] v; constraint c { v[11:4] == {1{v}}; v[4:4] == 0; } endclass module m; initial begin end endmodule",
    b"class P; bit d [], e [2], f [$]; endclass module m; initial begin P p = new; p.d = new[0]; p.d = '{}; p.e = '{0, 1}; p.f = '{1}; repeat (-1) ; end endmodule",
    b"typedef enum bit [1:0] { A, B, C, D } e; typedef enum bit signed [1:0] { E = -2, F, G, H } f; typedef enum { I = 4294967295, J } g; module m; initial begin end endmodule",
    b"typedef enum { A, B } e; class C; randc bit [7:0] a; randc byte b; randc e d; rand bit [8:0] f; endclass module m; initial begin end endmodule",
    b"typedef enum bit signed { A, B = -1 } e; typedef enum bit [15:0] { D, E } f; class C; randc f a; endclass module m; initial begin end endmodule",
];

#[test]
fn a_whole_of_more_than_64_bits_is_refused(rt: HostRuntime) {
    for (text, column) in WIDE {
        assert!(rt; is_refused(rt.alloc(), text, 9, 1, *column));
    }
}

#[test]
fn what_is_no_constant_is_refused(rt: HostRuntime) {
    for (text, column) in NOT_CONSTANT {
        assert!(rt; is_refused(rt.alloc(), text, 10, 1, *column));
    }
}

#[test]
fn a_bound_or_a_count_outside_its_range_is_refused(rt: HostRuntime) {
    for (text, column) in RANGES {
        assert!(rt; is_refused(rt.alloc(), text, 11, 1, *column));
    }
}

#[test]
fn a_member_outside_its_type_or_with_an_earlier_value_is_refused(rt: HostRuntime) {
    for (text, column) in ENUMS {
        assert!(rt; is_refused(rt.alloc(), text, 12, 1, *column));
    }
}

#[test]
fn a_cyclic_property_of_more_than_eight_bits_is_refused(rt: HostRuntime) {
    for (text, column) in CYCLIC {
        assert!(rt; is_refused(rt.alloc(), text, 13, 1, *column));
    }
}

#[test]
fn types_and_constants_at_their_bounds_are_accepted(rt: HostRuntime) {
    for text in ACCEPTED {
        assert!(rt; is_accepted(rt.alloc(), text));
    }
}
