// Expressions of a set behind a call, where script variables stand besides the properties (IEEE 1800-2017, 18.7.1).

use crate::outcome::Outcome::{self, Refused, Signed, Unsigned};
use crate::outcome::{in_block, in_set};

type Row = (&'static [u8], Outcome);

// numbers of refusals: 7 a name that stands for nothing there, 21 an index that can be random
const SETS: &[Row] = &[
    (b"c", Signed(32)),
    (b"local::c", Signed(32)),
    (b"a == c", Unsigned(1)),
    (b"v[c]", Unsigned(1)),
    (b"v[a]", Refused(21, 2)),
    // `local::` passes over properties, `this.` has no others
    (b"local::a", Refused(7, 2)),
    (b"local::e", Unsigned(4)),
    (b"this.c", Refused(7, 2)),
    // no object stands in a constraint
    (b"p", Refused(7, 0)),
    (b"p.a", Refused(7, 0)),
];

// no script variable stands in a block
const BLOCKS: &[Row] = &[(b"c", Refused(7, 0)), (b"local::c", Refused(7, 2))];

#[test]
fn sets(rt: HostRuntime) {
    for (text, wanted) in SETS {
        assert!(rt; in_set(rt.alloc(), text) == *wanted);
    }
}

#[test]
fn variables(rt: HostRuntime) {
    for (text, wanted) in BLOCKS {
        assert!(rt; in_block(rt.alloc(), text) == *wanted);
    }
}
