// Expressions of a constraint block, worked out by hand from the tables of sizes and signs and of the refusals (IEEE 1800-2017, 11.6 and 11.8).

use crate::outcome::Outcome::{self, Refused, Signed, Unsigned};
use crate::outcome::in_block;

type Row = (&'static [u8], Outcome);

// numbers of refusals: 7 a name that stands for nothing there, 9 over 64 bits, 10 no constant, 11 a range, 21 an index that can be random, 24 an array or a row as a value
const NAMES: &[Row] = &[
    (b"z", Refused(7, 0)),
    (b"z + z", Refused(7, 0)),
    (b"a + z", Refused(7, 2)),
    (b"v()", Refused(7, 0)),
    (b"v[0]()", Refused(7, 0)),
    (b"v.size", Refused(7, 2)),
    (b"d.z", Refused(7, 2)),
    (b"v.sum()", Refused(7, 2)),
    (b"v.sum with (1)", Refused(7, 0)),
    (b"d.sum(z) with (item)", Refused(7, 8)),
    (b"e", Unsigned(4)),
    (b"this.v", Unsigned(8)),
];

const SIZES: &[Row] = &[
    (b"5", Signed(32)),
    (b"'1", Unsigned(1)),
    (b"8'shff", Signed(8)),
    (b"64'd1", Unsigned(64)),
    (b"a + v", Unsigned(8)),
    (b"v - a", Unsigned(8)),
    (b"n + 1", Signed(32)),
    (b"v + 1", Unsigned(32)),
    (b"a << n", Unsigned(4)),
    (b"-n", Signed(32)),
    (b"&n", Unsigned(1)),
    (b"a < v", Unsigned(1)),
    (b"n && n", Unsigned(1)),
    (b"a ? v : n", Unsigned(32)),
    (b"n ? 1 : n", Signed(32)),
    (b"$signed(v)", Signed(8)),
    (b"$unsigned(n)", Unsigned(32)),
    (b"(n)", Signed(32)),
    (b"a inside {[1:$], d, m}", Unsigned(1)),
    (b"d.size", Signed(32)),
];

const WHOLES: &[Row] = &[
    (b"{a, v}", Unsigned(12)),
    (b"{n, n}", Unsigned(64)),
    (b"{n, n, a}", Refused(9, 0)),
    // a refused part keeps its size
    (b"{n, n, z == 1}", Refused(9, 0)),
    (b"a + {n, n, a}", Refused(9, 2)),
    (b"{2{n, n}}", Refused(9, 0)),
    (b"{8{v}}", Unsigned(64)),
    (b"{9{v}}", Refused(9, 0)),
    (b"{1{v}}", Unsigned(8)),
    (b"{e{v}}", Unsigned(8)),
    (b"{0{v}}", Refused(11, 1)),
    (b"{-1{v}}", Refused(11, 1)),
    (b"{n{v}}", Refused(10, 1)),
    (b"{d.size{v}}", Refused(10, 1)),
];

const SELECTS: &[Row] = &[
    (b"v[3]", Unsigned(1)),
    // past the vector, which is no refusal of a bit-select
    (b"v[9]", Unsigned(1)),
    (b"v[n]", Unsigned(1)),
    (b"v[d.size]", Unsigned(1)),
    (b"v[a]", Refused(21, 2)),
    (b"v[a] == 1", Refused(21, 2)),
    (b"v[n + a]", Refused(21, 2)),
    (b"v[d[0]]", Refused(21, 2)),
    (b"d[0][a]", Refused(21, 5)),
    (b"d[a]", Unsigned(8)),
    (b"m[a][a]", Unsigned(4)),
    (b"m[1][2][0]", Unsigned(1)),
    (b"v[7:4]", Unsigned(4)),
    (b"v[7:7]", Unsigned(1)),
    (b"v[e:0]", Unsigned(2)),
    (b"h[11:4]", Unsigned(8)),
    (b"v[8:0]", Refused(11, 2)),
    (b"h[12:4]", Refused(11, 2)),
    (b"h[11:3]", Refused(11, 4)),
    (b"v[0:3]", Refused(11, 2)),
    (b"v[n:0]", Refused(10, 2)),
    (b"v[7:n]", Refused(10, 4)),
    (b"v[a:n]", Refused(10, 2)),
];

const ARRAYS: &[Row] = &[
    (b"d", Refused(24, 0)),
    (b"(d)", Refused(24, 1)),
    (b"a + m", Refused(24, 2)),
    (b"m[1]", Refused(24, 0)),
    (b"a inside {m[1]}", Refused(24, 3)),
    (b"d.size()", Signed(32)),
    (b"d.sum()", Unsigned(8)),
    (b"d.sum with (item + 1)", Unsigned(32)),
    (b"d.sum(z) with (z)", Unsigned(8)),
    (b"m.or with (item > 1)", Unsigned(1)),
    (b"d.sum with (d.sum with (item))", Unsigned(8)),
];

#[test]
fn names(rt: HostRuntime) {
    for (text, wanted) in NAMES {
        assert!(rt; in_block(rt.alloc(), text) == *wanted);
    }
}

#[test]
fn sizes(rt: HostRuntime) {
    for (text, wanted) in SIZES {
        assert!(rt; in_block(rt.alloc(), text) == *wanted);
    }
}

#[test]
fn wholes(rt: HostRuntime) {
    for (text, wanted) in WHOLES {
        assert!(rt; in_block(rt.alloc(), text) == *wanted);
    }
}

#[test]
fn selects(rt: HostRuntime) {
    for (text, wanted) in SELECTS {
        assert!(rt; in_block(rt.alloc(), text) == *wanted);
    }
}

#[test]
fn arrays(rt: HostRuntime) {
    for (text, wanted) in ARRAYS {
        assert!(rt; in_block(rt.alloc(), text) == *wanted);
    }
}
